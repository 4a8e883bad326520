//! Types and descriptors of a line.
ghost use Rattle.std.specs.Prelude.{◌≡◌};
ghost use Rattle.std.specs.Option.{option_copied};
ghost use Rattle.class_desc.specs.TypeText.{is_letter};
ghost use Rattle.suid_calc.specs.Reading.{after_name, after_class, after_type, after_parameters, is_end, is_returned, is_type, is_signature, is_descriptor};

use crate::outline::{MAX_PARAMETERS, TYPE_BYTES};
use method_hash::is_class_byte;

/// Returns whether a byte is the letter of a primitive type.
fn is_letter(byte: u8) -> bool
    ensures { result ≡ is_letter byte }
{
    byte == b'B'
        || byte == b'C'
        || byte == b'D'
        || byte == b'F'
        || byte == b'I'
        || byte == b'J'
        || byte == b'S'
        || byte == b'Z'
}

/// Returns the text behind the rest of a class's name and its semicolon.
#[tactic(auto, using(crate::proofs::Loops::name_ends, crate::proofs::Loops::name_goes_on, crate::proofs::Loops::name_stops, crate::proofs::Loops::name_lacks))]
fn after_name(text: &[u8]) -> Option<&[u8]>
    ensures { option_copied result ≡ after_name text.now }
{
    for (i, byte) in text.iter().enumerate() {
        if *byte == b';' {
            return Some(&text[i + 1..]);
        }
        if !is_class_byte(*byte) {
            return None;
        }
    }
    None
}

/// Returns the text behind a class's name and its semicolon.
fn after_class(text: &[u8]) -> Option<&[u8]>
    ensures { option_copied result ≡ after_class text.now }
{
    match text {
        [] => None,
        [first, rest @ ..] => {
            if is_class_byte(*first) {
                after_name(rest)
            } else {
                None
            }
        }
    }
}

/// Returns the text behind a type's text.
#[tactic(auto, using(crate::proofs::Loops::type_of_class, crate::proofs::Loops::type_of_elements, crate::proofs::Loops::type_of_letter, crate::proofs::Loops::type_of_nothing, crate::proofs::Loops::type_lacks))]
fn after_type(text: &[u8]) -> Option<&[u8]>
    ensures { option_copied result ≡ after_type text.now }
{
    for (i, byte) in text.iter().enumerate() {
        if *byte == b'L' {
            return after_class(&text[i + 1..]);
        }
        if *byte != b'[' {
            return if is_letter(*byte) {
                Some(&text[i + 1..])
            } else {
                None
            };
        }
    }
    None
}

/// Returns the text behind the parameters of a descriptor and the closing parenthesis.
#[tactic(auto, using(crate::proofs::Loops::parameters_close, crate::proofs::Loops::parameters_full, crate::proofs::Loops::parameters_go_on, crate::proofs::Loops::parameters_stop, crate::proofs::Loops::parameters_lack))]
fn after_parameters(text: &[u8]) -> Option<&[u8]>
    ensures { option_copied result ≡ after_parameters MAX_PARAMETERS text.now }
{
    let mut rest = text;
    let mut left = MAX_PARAMETERS;
    while !rest.is_empty() {
        if rest[0] == b')' {
            return Some(&rest[1..]);
        }
        if left == 0 {
            return None;
        }
        left -= 1;
        match after_type(rest) {
            Some(behind) => rest = behind,
            None => return None,
        }
    }
    None
}

/// Returns whether a text is a type's, and nothing more.
fn is_whole_type(text: &[u8]) -> bool
    ensures { result ≡ is_end (after_type text.now) }
{
    match after_type(text) {
        Some(rest) => rest.is_empty(),
        None => false,
    }
}

/// Returns whether a text is `V` or a type's.
fn is_returned(text: &[u8]) -> bool
    ensures { result ≡ is_returned text.now }
{
    text == b"V".as_slice() || is_whole_type(text)
}

/// Returns whether a word is the text of a type, of at most 65,535 bytes.
pub(crate) fn is_type(word: &[u8]) -> bool
    ensures { result ≡ is_type word.now }
{
    word.len() <= TYPE_BYTES && is_whole_type(word)
}

/// Returns whether a text is the types of at most 255 parameters in parentheses, and then `V` or a type.
fn is_signature(text: &[u8]) -> bool
    ensures { result ≡ is_signature text.now }
{
    match text {
        [] => false,
        [first, rest @ ..] => {
            *first == b'('
                && match after_parameters(rest) {
                    Some(last) => is_returned(last),
                    None => false,
                }
        }
    }
}

/// Returns whether a word is a descriptor, of at most 65,535 bytes.
pub(crate) fn is_descriptor(word: &[u8]) -> bool
    ensures { result ≡ is_descriptor word.now }
{
    word.len() <= TYPE_BYTES && is_signature(word)
}

//! Lines of an outline.
ghost use Rattle.std.specs.Prelude.{◌≡◌, IfOk};
ghost use Rattle.std.specs.Option.{option_map};
ghost use Rattle.suid_calc.specs.Reading.{after_number, class_line_of, interface_of, field_of, constructor_of, method_of, with_word, member_of};

use crate::number::number;
use crate::outline::Member;
use crate::types::{is_descriptor, is_type};
use crate::words::{is_name, split_at};
use sequence::ByteList;
use std::alloc::{AllocError, Global};

/// Returns the number with which a text begins, and the text behind it and a blank.
fn after_number(text: &[u8]) -> Option<(u16, &[u8])>
    ensures { option_map (λ p. (p.0, p.1.now)) result ≡ after_number text.now }
{
    match split_at(b' ', text) {
        Some((digits, rest)) => match number(digits) {
            Some(modifiers) => Some((modifiers, rest)),
            None => None,
        },
        None => None,
    }
}

/// Returns the modifiers and the name of a class's line; None for another line.
#[tactic(auto, unfolding(crate::specs::Reading::class_line_of))]
pub(crate) fn class_line(line: &[u8]) -> Option<(u16, &[u8])>
    ensures { option_map (λ p. (p.0, p.1.now)) result ≡ class_line_of line.now }
{
    let Some((word, text)) = split_at(b' ', line) else {
        return None;
    };
    if word != b"class".as_slice() {
        return None;
    }
    match after_number(text) {
        Some((modifiers, name)) => {
            if is_name(name) {
                Some((modifiers, name))
            } else {
                None
            }
        }
        None => None,
    }
}

/// An interface, from what is behind the line's first word.
fn interface(alloc: Global, text: &[u8]) -> Result<Option<Member>, AllocError>
    ensures { IfOk result (λ member. member ≡ interface_of text.now) }
{
    if !is_name(text) {
        return Ok(None);
    }
    let name = ByteList::from_slice(alloc, text)?;
    Ok(Some(Member::Interface { name }))
}

/// A field, from what is behind the line's first word.
fn field(alloc: Global, text: &[u8]) -> Result<Option<Member>, AllocError>
    ensures { IfOk result (λ member. member ≡ field_of text.now) }
{
    let Some((modifiers, text)) = after_number(text) else {
        return Ok(None);
    };
    let Some((name, type_text)) = split_at(b' ', text) else {
        return Ok(None);
    };
    if !is_name(name) || !is_type(type_text) {
        return Ok(None);
    }
    let name = ByteList::from_slice(alloc, name)?;
    let type_text = ByteList::from_slice(alloc, type_text)?;
    Ok(Some(Member::Field {
        modifiers,
        name,
        type_text,
    }))
}

/// A constructor, from what is behind the line's first word.
fn constructor(alloc: Global, text: &[u8]) -> Result<Option<Member>, AllocError>
    ensures { IfOk result (λ member. member ≡ constructor_of text.now) }
{
    let Some((modifiers, text)) = after_number(text) else {
        return Ok(None);
    };
    if !is_descriptor(text) {
        return Ok(None);
    }
    let descriptor = ByteList::from_slice(alloc, text)?;
    Ok(Some(Member::Constructor {
        modifiers,
        descriptor,
    }))
}

/// A method, from what is behind the line's first word.
fn method(alloc: Global, text: &[u8]) -> Result<Option<Member>, AllocError>
    ensures { IfOk result (λ member. member ≡ method_of text.now) }
{
    let Some((modifiers, text)) = after_number(text) else {
        return Ok(None);
    };
    let Some((name, descriptor)) = split_at(b' ', text) else {
        return Ok(None);
    };
    if !is_name(name) || !is_descriptor(descriptor) {
        return Ok(None);
    }
    let name = ByteList::from_slice(alloc, name)?;
    let descriptor = ByteList::from_slice(alloc, descriptor)?;
    Ok(Some(Member::Method {
        modifiers,
        name,
        descriptor,
    }))
}

/// A member, from the line's first word and what is behind it.
fn with_word(alloc: Global, word: &[u8], text: &[u8]) -> Result<Option<Member>, AllocError>
    ensures { IfOk result (λ member. member ≡ with_word word.now text.now) }
{
    if word == b"interface".as_slice() {
        interface(alloc, text)
    } else if word == b"field".as_slice() {
        field(alloc, text)
    } else if word == b"constructor".as_slice() {
        constructor(alloc, text)
    } else if word == b"method".as_slice() {
        method(alloc, text)
    } else {
        Ok(None)
    }
}

/// The member of a line; None where the line is none's.
#[tactic(auto, unfolding(crate::specs::Reading::member_of))]
pub(crate) fn member_of(alloc: Global, line: &[u8]) -> Result<Option<Member>, AllocError>
    ensures { IfOk result (λ member. member ≡ member_of line.now) }
{
    if line == b"clinit".as_slice() {
        return Ok(Some(Member::Initializer));
    }
    match split_at(b' ', line) {
        Some((word, text)) => with_word(alloc, word, text),
        None => Ok(None),
    }
}

//! Type texts: how the type of a reference field and the name of an array's class are written.
ghost use Rattle.std.specs.Prelude.{◌≡◌, IfSome, IfNone};
ghost use Rattle.class_desc.specs.TypeCode.{letter};
ghost use Rattle.class_desc.specs.TypeText.{ends_class, is_class_text, is_letter, is_array_text, fits_text, code_of, element_of, HasElements};
ghost use Rattle.class_desc.specs.declared.field.TypeCode.{TypeCode};

use crate::field::TypeCode;
use sequence::Units;

/// Returns whether a text ends in a semicolon.
#[tactic(auto, unfolding(crate::specs::TypeText::ends_class), using(crate::proofs::TypeTexts::ends_last))]
fn ends_class(text: &[u16]) -> bool
    ensures { result ≡ ends_class text.now }
{
    match text {
        [] => false,
        [.., last] => *last == 0x3B,
    }
}

/// Returns whether a text is `L`, at least one unit, and a semicolon.
fn is_class_text(text: &[u16]) -> bool
    ensures { result ≡ is_class_text text.now }
{
    match text {
        [first, _, rest @ ..] => *first == 0x4C && ends_class(rest),
        _ => false,
    }
}

/// Returns whether a unit is the letter of a primitive type.
fn is_letter(unit: u16) -> bool
    ensures { result ≡ is_letter unit }
{
    unit == 0x42
        || unit == 0x43
        || unit == 0x44
        || unit == 0x46
        || unit == 0x49
        || unit == 0x4A
        || unit == 0x53
        || unit == 0x5A
}

/// Returns whether a text is one or more brackets and then a letter or a class's text.
#[tactic(auto, unfolding(crate::specs::TypeText::is_array_text, crate::specs::TypeText::is_component_text))]
fn is_array_text(text: &[u16]) -> bool
    ensures { result ≡ is_array_text text.now }
{
    if text.is_empty() || text[0] != 0x5B {
        return false;
    }
    let mut i = 1;
    while i < text.len() && text[i] == 0x5B {
        i += 1;
    }
    if i == text.len() {
        return false;
    }
    if text[i] == 0x4C {
        is_class_text(&text[i..])
    } else {
        is_letter(text[i]) && i + 1 == text.len()
    }
}

/// The type that a letter stands for.
fn code_of(unit: u16) -> Option<TypeCode>
    ensures value { result ≡ code_of unit }
    ensures found { IfSome result (λ code. unit ≡ letter code) }
    ensures none { IfNone result ((code : TypeCode) → ¬ (unit ≡ letter code)) }
{
    match unit {
        0x42 => Some(TypeCode::Byte),
        0x43 => Some(TypeCode::Char),
        0x44 => Some(TypeCode::Double),
        0x46 => Some(TypeCode::Float),
        0x49 => Some(TypeCode::Int),
        0x4A => Some(TypeCode::Long),
        0x53 => Some(TypeCode::Short),
        0x5A => Some(TypeCode::Boolean),
        0x5B => Some(TypeCode::Array),
        0x4C => Some(TypeCode::Object),
        _ => None,
    }
}

/// The type of the elements of the array class of a name: what follows the first bracket.
#[tactic(auto, unfolding(crate::specs::TypeText::element_of))]
fn element_of(name: &[u16]) -> Option<TypeCode>
    ensures value { result ≡ element_of name.now }
    ensures found { IfSome result (HasElements name.now) }
    ensures none { IfNone result ((code : TypeCode) → ¬ HasElements name.now code) }
{
    match name {
        [_, second, ..] => {
            if is_array_text(name) {
                code_of(*second)
            } else {
                None
            }
        }
        _ => None,
    }
}

/// The type of the elements of the array class of a name: what follows the first bracket.
/// None exactly where the name is no array class's.
pub fn element_code(name: &Units) -> Option<TypeCode>
    ensures found { IfSome result (HasElements name.now) }
    ensures none { IfNone result ((code : TypeCode) → ¬ HasElements name.now code) }
    ensures value { result ≡ element_of name.now }
{
    element_of(name.as_slice())
}

/// Returns whether a text is a type text of the code. A primitive code has none.
pub(crate) fn fits_text(code: TypeCode, text: &[u16]) -> bool
    ensures { result ≡ fits_text code text.now }
{
    match code {
        TypeCode::Array => element_of(text).is_some(),
        TypeCode::Object => is_class_text(text),
        _ => false,
    }
}

impl TypeCode {
    /// The ASCII letter that stands for the type.
    pub fn letter(self) -> u8
        ensures { result ≡ letter self }
    {
        match self {
            TypeCode::Byte => 0x42,
            TypeCode::Char => 0x43,
            TypeCode::Double => 0x44,
            TypeCode::Float => 0x46,
            TypeCode::Int => 0x49,
            TypeCode::Long => 0x4A,
            TypeCode::Short => 0x53,
            TypeCode::Boolean => 0x5A,
            TypeCode::Array => 0x5B,
            TypeCode::Object => 0x4C,
        }
    }

    /// The type that an ASCII letter stands for; None exactly where it stands for none.
    pub fn from_letter(byte: u8) -> Option<TypeCode>
        ensures found { IfSome result (λ code. byte ≡ letter code) }
        ensures none { IfNone result ((code : TypeCode) → ¬ (byte ≡ letter code)) }
        ensures value { result ≡ code_of byte }
    {
        code_of(u16::from(byte))
    }
}

//! The checks of a description and of a type text.
ghost use Rattle.std.specs.Prelude.{◌≡◌, is_ok, IfErr, IsTrue, OnOk};
ghost use Rattle.std.specs.Ordering.{is_lt, nat_cmp};
ghost use Rattle.std.specs.Cmp.Lexicographic.{slice_cmp};
ghost use Rattle.class_desc.specs.TypeText.{HasTypeText, fits_text};
ghost use Rattle.class_desc.specs.ClassDesc.{has_flag, lacks_flag, fit_flags, comes_before, are_ordered, is_good_desc, HasGoodFlags, IsFirstFault};

use crate::desc::{BLOCK_DATA, ClassDesc, ENUM, EXTERNALIZABLE, SERIALIZABLE, WRITE_METHOD};
use crate::field::{FieldDesc, TypeCode, is_primitive};
use crate::type_text::fits_text;
use sequence::Units;
use std::cmp::Ordering;
use thiserror::Error;

/// The reason why a description or a type text is refused.
#[derive(Clone, Copy, Debug, PartialEq, Eq, Error)]
pub enum DescFault {
    /// The flags contradict each other, the fields or the serialVersionUID, or one is unknown.
    #[error("bad flags")]
    BadFlags,
    /// A primitive field stands after a reference field, or names don't rise.
    #[error("fields out of order")]
    FieldOrder,
    /// The text names no type of its field's code.
    #[error("bad type text")]
    BadTypeText,
}

/// True where the sum of a class's flags has a flag.
pub fn has_flag(flags: u8, flag: u8) -> bool
    ensures { result ≡ has_flag flags flag }
{
    flags & flag == flag
}

/// True where the sum of a class's flags lacks a flag.
pub fn lacks_flag(flags: u8, flag: u8) -> bool
    ensures { result ≡ lacks_flag flags flag }
{
    flags & flag == 0
}

/// Returns whether a description's flags agree with each other, with its fields and with its serialVersionUID.
#[tactic(auto, unfolding(crate::specs::ClassDesc::fit_flags))]
fn fit_flags(desc: &ClassDesc) -> bool
    ensures { result ≡ fit_flags desc.now }
{
    let flags = desc.flags;
    flags < 32
        && (lacks_flag(flags, SERIALIZABLE) || lacks_flag(flags, EXTERNALIZABLE))
        && (lacks_flag(flags, BLOCK_DATA) || has_flag(flags, EXTERNALIZABLE))
        && (lacks_flag(flags, WRITE_METHOD) || has_flag(flags, SERIALIZABLE))
        && (lacks_flag(flags, ENUM)
            || (has_flag(flags, SERIALIZABLE)
                && lacks_flag(flags, WRITE_METHOD)
                && desc.fields.is_empty()
                && desc.suid == 0))
}

/// Returns whether a name is below another, unit by unit.
fn is_below(name: &[u16], other: &[u16]) -> bool
    ensures { result ≡ is_lt (slice_cmp nat_cmp name.now other.now) }
{
    match name.cmp(other) {
        Ordering::Less => true,
        Ordering::Equal => false,
        Ordering::Greater => false,
    }
}

/// Returns whether a field may come directly before another.
fn comes_before(field: &FieldDesc, next: &FieldDesc) -> bool
    ensures { result ≡ comes_before field.now next.now }
{
    if is_primitive(field.code) {
        if is_primitive(next.code) {
            is_below(field.name.as_slice(), next.name.as_slice())
        } else {
            true
        }
    } else if is_primitive(next.code) {
        false
    } else {
        is_below(field.name.as_slice(), next.name.as_slice())
    }
}

/// Returns whether each field may come directly before the next one.
#[tactic(auto, unfolding(crate::specs::ClassDesc::are_ordered), using(crate::proofs::Fields::ordered_end))]
fn are_ordered(fields: &[FieldDesc]) -> bool
    ensures { result ≡ are_ordered fields.now }
{
    let mut i = 1;
    while i < fields.len() {
        if !comes_before(&fields[i - 1], &fields[i]) {
            return false;
        }
        i += 1;
    }
    true
}

/// Checks a description: the rules on its flags, and then the order of its fields.
pub fn check_desc(desc: &ClassDesc) -> Result<(), DescFault>
    ensures ok { OnOk result (HasGoodFlags desc.now × IsTrue (are_ordered desc.now.fields)) }
    ensures err { IfErr result (IsFirstFault desc.now) }
    ensures tested { is_ok result ≡ is_good_desc desc.now }
{
    if !fit_flags(desc) {
        return Err(DescFault::BadFlags);
    }
    if !are_ordered(desc.fields.as_slice()) {
        return Err(DescFault::FieldOrder);
    }
    Ok(())
}

/// Checks that a text names a type of a reference field's code; a primitive code has no type text.
pub fn check_type_text(code: TypeCode, text: &Units) -> Result<(), DescFault>
    ensures ok { OnOk result (HasTypeText code text.now) }
    ensures err { IfErr result
        (λ fault. (fault ≡ DescFault.BadTypeText) × ¬ HasTypeText code text.now) }
    ensures tested { is_ok result ≡ fits_text code text.now }
{
    if fits_text(code, text.as_slice()) {
        Ok(())
    } else {
        Err(DescFault::BadTypeText)
    }
}

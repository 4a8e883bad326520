//! The text of which a class's serialVersionUID is the hash, and the number.
ghost use Rattle.std.specs.Prelude.{◌≡◌, ◌++◌, ◌<◌, ◌^◌, length, map, true, IfOk, OnOk, if◌then◌else◌};
ghost use Rattle.std.specs.List.{AllByRecursion, flat_map, list_any};
ghost use Rattle.suid_calc.specs.Reading.{is_good, is_name, is_type, is_descriptor};
ghost use Rattle.suid_calc.specs.Text.{utf, word, has_bit, is_hidden_field, dot_of, dotted_utf, field_entry, constructor_entry, method_entry, initializer_entry, entry, is_method, class_modifiers};
ghost use Rattle.suid_calc.specs.Whole.{text_of, number_of};

use crate::outline::{ClassOutline, Member};
use method_hash::fold_hash;
use sequence::ByteList;
use sha1::Sha1;
use std::alloc::{AllocError, Global};

/// Appends a text: its length in 16 bits, and its bytes.
fn put_utf(out: &mut ByteList, text: &[u8]) -> Result<(), AllocError>
    requires { length text.now < 2 ^ 16 }
    ensures { OnOk result (out.new ≡ out.old ++ utf text.now) }
{
    out.append(&(text.len() as u16).to_be_bytes())?;
    out.append(text)?;
    Ok(())
}

/// Appends a number in 32 bits.
fn put_word(out: &mut ByteList, number: u32) -> Result<(), AllocError>
    ensures { OnOk result (out.new ≡ out.old ++ word number) }
{
    out.append(&number.to_be_bytes())?;
    Ok(())
}

/// Returns the byte that stands for another in a descriptor: a dot for a slash.
fn dot_of(byte: u8) -> u8
    ensures { result ≡ dot_of byte }
{
    if byte == b'/' { b'.' } else { byte }
}

/// Appends bytes, with dots for slashes.
pub(crate) fn put_dotted(out: &mut ByteList, text: &[u8]) -> Result<(), AllocError>
    ensures { OnOk result (out.new ≡ out.old ++ map dot_of text.now) }
{
    for byte in text {
        out.push(dot_of(*byte))?;
    }
    Ok(())
}

/// Appends a descriptor as a text, with dots for slashes.
fn put_descriptor(out: &mut ByteList, descriptor: &[u8]) -> Result<(), AllocError>
    requires { length descriptor.now < 2 ^ 16 }
    ensures { OnOk result (out.new ≡ out.old ++ dotted_utf descriptor.now) }
{
    out.append(&(descriptor.len() as u16).to_be_bytes())?;
    put_dotted(out, descriptor)?;
    Ok(())
}

/// Returns whether modifiers have a bit.
pub(crate) fn has_bit(modifiers: u16, bit: u16) -> bool
    ensures { result ≡ has_bit modifiers bit }
{
    modifiers & bit != 0
}

/// Returns whether a field is private and static, or private and transient.
fn is_hidden_field(modifiers: u16) -> bool
    ensures { result ≡ is_hidden_field modifiers }
{
    has_bit(modifiers, 2) && (has_bit(modifiers, 8) || has_bit(modifiers, 128))
}

/// Appends what a field adds.
fn put_field(
    out: &mut ByteList,
    modifiers: u16,
    name: &[u8],
    type_text: &[u8],
) -> Result<(), AllocError>
    requires name { is_name name.now ≡ true }
    requires type_text { is_type type_text.now ≡ true }
    ensures { OnOk result (out.new ≡ out.old ++ field_entry modifiers name.now type_text.now) }
{
    if is_hidden_field(modifiers) {
        return Ok(());
    }
    put_utf(out, name)?;
    put_word(out, u32::from(modifiers & 223))?;
    put_utf(out, type_text)?;
    Ok(())
}

/// Appends what a class's initializer adds.
fn put_initializer(out: &mut ByteList) -> Result<(), AllocError>
    ensures { OnOk result (out.new ≡ out.old ++ initializer_entry) }
{
    put_utf(out, b"<clinit>")?;
    put_word(out, 8)?;
    put_utf(out, b"()V")?;
    Ok(())
}

/// Appends what a constructor adds.
fn put_constructor(out: &mut ByteList, modifiers: u16, descriptor: &[u8]) -> Result<(), AllocError>
    requires { is_descriptor descriptor.now ≡ true }
    ensures { OnOk result (out.new ≡ out.old ++ constructor_entry modifiers descriptor.now) }
{
    if has_bit(modifiers, 2) {
        return Ok(());
    }
    put_utf(out, b"<init>")?;
    put_word(out, u32::from(modifiers & 3391))?;
    put_descriptor(out, descriptor)?;
    Ok(())
}

/// Appends what a method adds.
fn put_method(
    out: &mut ByteList,
    modifiers: u16,
    name: &[u8],
    descriptor: &[u8],
) -> Result<(), AllocError>
    requires name { is_name name.now ≡ true }
    requires descriptor { is_descriptor descriptor.now ≡ true }
    ensures { OnOk result (out.new ≡ out.old ++ method_entry modifiers name.now descriptor.now) }
{
    if has_bit(modifiers, 2) {
        return Ok(());
    }
    put_utf(out, name)?;
    put_word(out, u32::from(modifiers & 3391))?;
    put_descriptor(out, descriptor)?;
    Ok(())
}

/// Appends what a member adds.
fn put_member(out: &mut ByteList, member: &Member) -> Result<(), AllocError>
    requires { is_good member.now ≡ true }
    ensures { OnOk result (out.new ≡ out.old ++ entry member.now) }
{
    match member {
        Member::Interface { name } => put_utf(out, name.as_slice()),
        Member::Field {
            modifiers,
            name,
            type_text,
        } => put_field(out, *modifiers, name.as_slice(), type_text.as_slice()),
        Member::Initializer => put_initializer(out),
        Member::Constructor {
            modifiers,
            descriptor,
        } => put_constructor(out, *modifiers, descriptor.as_slice()),
        Member::Method {
            modifiers,
            name,
            descriptor,
        } => put_method(out, *modifiers, name.as_slice(), descriptor.as_slice()),
    }
}

/// Appends what some members add.
fn put_members(out: &mut ByteList, members: &[Member]) -> Result<(), AllocError>
    requires { AllByRecursion (λ m. is_good m ≡ true) members.now }
    ensures { OnOk result (out.new ≡ out.old ++ flat_map entry members.now) }
{
    for member in members {
        put_member(out, member)?;
    }
    Ok(())
}

/// Returns whether a member is a method.
fn is_method(member: &Member) -> bool
    ensures { result ≡ is_method member.now }
{
    match member {
        Member::Method { .. } => true,
        _ => false,
    }
}

/// Returns whether a member among some is a method.
fn have_method(members: &[Member]) -> bool
    ensures { result ≡ list_any is_method members.now }
{
    members.iter().any(|member| is_method(member))
}

/// Returns the modifiers of a class that count: public, final, interface and abstract. An interface is abstract exactly if it has a method.
fn class_modifiers(modifiers: u16, members: &[Member]) -> u32
    ensures { result ≡ class_modifiers modifiers members.now }
{
    if !has_bit(modifiers, 512) {
        return u32::from(modifiers & 1553);
    }
    let counted = u32::from(modifiers & 529);
    if have_method(members) {
        counted + 1024
    } else {
        counted
    }
}

/// Returns the text of which the outline's serialVersionUID is the hash (Java Object Serialization Specification, 4.6).
#[tactic(auto, unfolding(crate::specs::Text::suid_text))]
pub fn suid_text(alloc: Global, outline: &ClassOutline) -> Result<ByteList, AllocError>
    ensures { IfOk result (λ text. text ≡ text_of outline.now) }
{
    let mut text = ByteList::new(alloc);
    let modifiers = class_modifiers(outline.modifiers, outline.members.as_slice());
    put_utf(&mut text, outline.name.as_slice())?;
    put_word(&mut text, modifiers)?;
    put_members(&mut text, outline.members.as_slice())?;
    Ok(text)
}

/// Returns the outline's serialVersionUID: the SHA-1 digest of `suid_text`, folded (Java Object Serialization Specification, 4.6).
pub fn suid(alloc: Global, outline: &ClassOutline) -> Result<i64, AllocError>
    ensures { IfOk result (λ number. number ≡ number_of outline.now) }
{
    let text = suid_text(alloc, outline)?;
    Ok(fold_hash(Sha1::digest(text.as_slice())))
}

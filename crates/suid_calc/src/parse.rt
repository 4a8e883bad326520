//! Outlines from text.
ghost use Rattle.std.specs.Prelude.{◌≡◌, ◌++◌, ℕ, [], true, IfOk, IfErr, OnOk};
ghost use Rattle.std.specs.BTreeMap.{values};
ghost use Rattle.std.specs.Option.{option_copied};
ghost use Rattle.std.specs.List.{AllByRecursion};
ghost use Rattle.std.specs.List.Sorted.{IsStrictlySortedBy};
ghost use Rattle.suid_calc.specs.Members.{kind_of, name_of, descriptor_of, key_of, compare};
ghost use Rattle.suid_calc.specs.Grammar.{IsUnread};
ghost use Rattle.suid_calc.specs.Reading.{is_good};
ghost use Rattle.suid_calc.specs.Loops.{HasRead, Keeps, Takes, AreKept, IsUnreadRest};
ghost use Rattle.suid_calc.specs.Whole.{Spells};

use crate::lines::{class_line, member_of};
use crate::outline::{ClassOutline, Member, MemberList, OutlineFault};
use crate::words::split_at;
use sequence::ByteList;
use std::alloc::{AllocError, Global};
use std::collections::BTreeMap;

/// The members that were read, in their order: each by what tells it from others.
type Kept = BTreeMap<Vec<u8>, Member>;

/// The place of a member's kind.
fn kind_of(member: &Member) -> u8
    ensures { result ≡ kind_of member.now }
{
    match member {
        Member::Interface { .. } => 0,
        Member::Field { .. } => 1,
        Member::Initializer => 2,
        Member::Constructor { .. } => 3,
        Member::Method { .. } => 4,
    }
}

/// The name by which a member is ordered.
pub(crate) fn name_of(member: &Member) -> &[u8]
    ensures { result.now ≡ name_of member.now }
{
    match member {
        Member::Interface { name } => name.as_slice(),
        Member::Field { name, .. } => name.as_slice(),
        Member::Initializer => &[],
        Member::Constructor { .. } => &[],
        Member::Method { name, .. } => name.as_slice(),
    }
}

/// The descriptor by which a member is ordered.
fn descriptor_of(member: &Member) -> &[u8]
    ensures { result.now ≡ descriptor_of member.now }
{
    match member {
        Member::Interface { .. } => &[],
        Member::Field { .. } => &[],
        Member::Initializer => &[],
        Member::Constructor { descriptor, .. } => descriptor.as_slice(),
        Member::Method { descriptor, .. } => descriptor.as_slice(),
    }
}

/// Returns the bytes that tell a member from others. They have the members' order.
fn key_of(alloc: Global, member: &Member) -> Result<Vec<u8>, AllocError>
    ensures { IfOk result (λ key. key.items ≡ key_of member.now) }
{
    let mut key = ByteList::new(alloc);
    key.push(kind_of(member))?;
    key.append(name_of(member))?;
    key.push(b' ')?;
    key.append(descriptor_of(member))?;
    Ok(key.into_vec())
}

/// Keeps a member, unless one that is the same is kept already. Returns whether it was kept now.
fn keep(alloc: Global, kept: &mut Kept, member: Member) -> Result<bool, AllocError>
    requires good { is_good member ≡ true }
    requires kept { AreKept (λ k. k.items) kept.old.entries }
    ensures kept { OnOk result (AreKept (λ k. k.items) kept.new.entries) }
    ensures ok { IfOk result (λ added. Keeps added member (values kept.old) (values kept.new)) }
{
    let key = key_of(alloc, &member)?;
    if kept.contains_key(key.as_slice()) {
        drop(member);
        return Ok(false);
    }
    match kept.insert(key, member) {
        Ok(_old) => Ok(true),
        Err(_failed) => Err(AllocError),
    }
}

/// Keeps the member of the line with which the rest begins, and answers what is behind the line; None where no line of a further
/// member is there.
fn take_member<'a>(
    alloc: Global,
    kept: &mut Kept,
    rest: &'a [u8],
) -> Result<Option<&'a [u8]>, AllocError>
    requires { AreKept (λ k. k.items) kept.old.entries }
    ensures kept { OnOk result (AreKept (λ k. k.items) kept.new.entries) }
    ensures ok { IfOk result
        (λ o. Takes rest.now (values kept.old) (values kept.new) (option_copied o)) }
{
    let Some((line, behind)) = split_at(b'\n', rest) else {
        return Ok(None);
    };
    let Some(member) = member_of(alloc, line)? else {
        return Ok(None);
    };
    if keep(alloc, kept, member)? {
        Ok(Some(behind))
    } else {
        Ok(None)
    }
}

/// The members of the lines behind an outline's first one.
fn members_of(alloc: Global, text: &[u8]) -> Result<Kept, OutlineFault>
    ensures kept { IfOk result (λ kept. AreKept (λ k. k.items) kept.entries) }
    ensures ok { IfOk result (λ kept. (number : ℕ) × HasRead text.now (values kept) number []) }
    ensures err { IfErr result (IsUnreadRest text.now) }
{
    let mut kept = BTreeMap::new(alloc);
    let mut rest = text;
    let mut line = 2;
    while !rest.is_empty() {
        match take_member(alloc, &mut kept, rest)? {
            Some(behind) => rest = behind,
            None => return Err(OutlineFault::BadLine { line }),
        }
        line += 1;
    }
    Ok(kept)
}

/// Appends the kept members, in their order.
fn put_all(members: &mut MemberList, kept: Kept) -> Result<(), AllocError>
    ensures { OnOk result (members.new ≡ members.old ++ values kept) }
{
    for (_key, member) in kept {
        members.push(member)?;
    }
    Ok(())
}

/// The kept members as a list.
fn list_of(alloc: Global, kept: Kept) -> Result<MemberList, AllocError>
    requires { AreKept (λ k. k.items) kept.entries }
    ensures members { IfOk result (λ members. members ≡ values kept) }
    ensures ordered { IfOk result (λ members. IsStrictlySortedBy compare members) }
    ensures good { IfOk result (λ members. AllByRecursion (λ m. is_good m ≡ true) members) }
{
    let mut members = MemberList::new(alloc);
    members.reserve(kept.len())?;
    put_all(&mut members, kept)?;
    Ok(members)
}

/// Returns the outline of a text: a line `class MODS NAME`, and then, in any order, lines `interface NAME`, `field MODS NAME TYPE`,
/// `clinit`, `constructor MODS DESCRIPTOR` and `method MODS NAME DESCRIPTOR`; each line ends with LF. One blank parts two words.
///
/// - MODS is a decimal number from 0 to 65,535 without leading zeros.
/// - NAME has 1 to 255 bytes from 21 to 7E.
/// - TYPE has 1 to 65,535 bytes: `[` for each dimension of an array, and then one of `BCDFIJSZ`, or `L`, a class's name and `;`. The
///   name has 1 or more bytes from 21 to 7E other than `;`, `(`, `)` and `[`.
/// - DESCRIPTOR has at most 65,535 bytes: `(`, 0 to 255 of TYPE, `)`, and then `V` or one TYPE.
///
/// `BadLine` names the first line that is none of these in its place, or that repeats an interface, a field's name, `clinit`, a
/// constructor's descriptor, or a method's name and descriptor.
pub fn parse_outline(alloc: Global, text: &[u8]) -> Result<ClassOutline, OutlineFault>
    ensures ok { IfOk result (λ outline. Spells text.now outline) }
    ensures err { IfErr result (IsUnread text.now) }
{
    let Some((line, rest)) = split_at(b'\n', text) else {
        return Err(OutlineFault::BadLine { line: 1 });
    };
    let Some((modifiers, name)) = class_line(line) else {
        return Err(OutlineFault::BadLine { line: 1 });
    };
    let kept = match members_of(alloc, rest) {
        Ok(kept) => kept,
        Err(fault) => return Err(fault),
    };
    let name = ByteList::from_slice(alloc, name)?;
    let members = list_of(alloc, kept)?;
    Ok(ClassOutline {
        modifiers,
        name,
        members,
    })
}

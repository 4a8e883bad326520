//! For each object how many clients hold it and how many name it.
ghost use Rattle.std.specs.Prelude.{◌≡◌, ◌+◌, ◌≤◌, ◌^◌, ◌||◌, IsTrue, OnOk, true, if◌then◌else◌};
ghost use Rattle.object_ids.specs.declared.ids.ObjId.{ObjId};
ghost use Rattle.object_ids.specs.Same.{same_id};
ghost use Rattle.dgc_server.specs.Entry.{object_entries, each_has_number, is_in, has_time_left, remembered_of, entry_after_lapse};
ghost use Rattle.dgc_server.specs.StandsForCalls.{each_once};
ghost use Rattle.dgc_server.specs.HolderIndex.{Way, Naming, no_count, count_by, count_at, counted_at, has_count, one_if, share_by, lost_share, loses, has_with, is_counted, is_named, total_of};

use crate::entry::ClientEntry;
use crate::marks::Marks;
use crate::packed::Packed;
use crate::table::{self, Sums};
use indexmap::IndexMap;
use object_ids::ObjId;
use std::alloc::AllocError;

/// The place of a client: in the chunk of this number, behind so many others of it. It is kept as a hint where to look first.
#[derive(Clone, Copy)]
pub struct ClientHint {
    /// The number of the chunk, from 0 on.
    pub chunk: u16,
    /// The place in the chunk, from 0 on.
    pub index: u16,
}

impl ClientHint {
    /// A place, if its numbers are not too great, and the first of all, if they are.
    pub fn new(chunk: usize, index: usize) -> ClientHint {
        if chunk <= u16::MAX as usize && index <= u16::MAX as usize {
            ClientHint {
                chunk: chunk as u16,
                index: index as u16,
            }
        } else {
            FIRST_CLIENT
        }
    }
}

/// The first place of all.
const FIRST_CLIENT: ClientHint = ClientHint { chunk: 0, index: 0 };

/// The counts of an object: how many clients hold it, how many name it (some number of it is kept of them), and at which place one
/// that names it stood when a call of it was noted last.
#[derive(Clone, Copy)]
pub struct Count {
    pub holders: u32,
    pub clients: u32,
    pub hint: ClientHint,
}

/// The part of a client in an object's counts: whether it holds the object, and whether it names it.
#[derive(Clone, Copy)]
pub struct Share {
    pub holds: bool,
    pub names: bool,
}

/// The outcome of time's passing: a moment before which no lease ends, and the sums since.
#[derive(Clone, Copy)]
pub struct Passed {
    pub next: u64,
    pub sums: Sums,
}

/// The counts of each object.
pub type Counts = IndexMap<ObjId, Count>;

/// Returns the counts of an object that no client names: all are 0.
fn no_count() -> Count
    ensures { result ≡ no_count }
{
    Count {
        holders: 0,
        clients: 0,
        hint: FIRST_CLIENT,
    }
}

/// The counts of an object.
pub fn count_of(counts: &Counts, object: &ObjId) -> Count
    ensures { result ≡ count_at counts.now object.now }
{
    counts.get(object).copied().unwrap_or(no_count())
}

/// Makes a place for an object's count. No count changes, also where there is no memory.
pub fn touch(counts: &mut Counts, object: &ObjId) -> Result<(), AllocError>
    ensures same { (w : Way) (o : ObjId) → counted_at w counts.new o ≡ counted_at w counts.old o }
    ensures kept { (o : ObjId) → has_count counts.old o ≡ true → has_count counts.new o ≡ true }
    ensures ok { OnOk result (has_count counts.new object.now ≡ true) }
{
    if !counts.contains_key(object) {
        counts.insert(*object, no_count())?;
    }
    Ok(())
}

/// Sets the count of an object that has one. It takes no memory.
fn put(counts: &mut Counts, object: &ObjId, count: Count)
    requires { has_count counts.old object.now ≡ true }
    ensures value { (o : ObjId)
        → count_at counts.new o ≡ (if same_id object.now o then count else count_at counts.old o) }
    ensures kept { (o : ObjId) → has_count counts.old o ≡ true → has_count counts.new o ≡ true }
{
    match counts.insert(*object, count) {
        Ok(_was) => {}
        Err(_refused) => {}
    }
}

/// One fewer, if there is a share in it.
fn less(count: u32, share: bool) -> u32
    requires { one_if share ≤ count }
    ensures { result + one_if share ≡ count }
{
    if share { count - 1 } else { count }
}

/// One more, if there is a share in it.
fn more(count: u32, share: bool) -> u32
    requires { count ≤ 2 ^ 31 }
    ensures { result ≡ count + one_if share }
{
    if share { count + 1 } else { count }
}

/// A count without a client's share.
fn lower_count(count: Count, share: Share) -> Count
    requires { (w : Way) → one_if (share_by w share) ≤ count_by w count }
    ensures { (w : Way) → count_by w result + one_if (share_by w share) ≡ count_by w count }
{
    let holders = less(count.holders, share.holds);
    let clients = less(count.clients, share.names);
    Count {
        holders,
        clients,
        hint: count.hint,
    }
}

/// A count with the share of a client at this place.
fn raise_count(count: Count, share: Share, hint: ClientHint) -> Count
    requires { (w : Way) → count_by w count ≤ 2 ^ 31 }
    ensures { (w : Way) → count_by w result ≡ count_by w count + one_if (share_by w share) }
{
    let holders = more(count.holders, share.holds);
    let clients = more(count.clients, share.names);
    Count {
        holders,
        clients,
        hint,
    }
}

/// Returns whether the client counts at all.
fn is_any(share: Share) -> bool
    ensures { result ≡ (share.holds || share.names) }
{
    share.holds || share.names
}

/// Takes a client's share out of the count of an object.
pub fn lower(counts: &mut Counts, object: &ObjId, share: Share)
    requires { (w : Way) → one_if (share_by w share) ≤ counted_at w counts.old object.now }
    ensures counts { (w : Way) (o : ObjId)
        → counted_at w counts.new o
        + (if share_by w share then one_if (same_id object.now o) else 0)
        ≡ counted_at w counts.old o }
    ensures kept { (o : ObjId) → has_count counts.old o ≡ true → has_count counts.new o ≡ true }
{
    if is_any(share) {
        let count = count_of(counts, object);
        put(counts, object, lower_count(count, share));
    }
}

/// Counts a client, at this place, for another share in an object.
pub fn shift(counts: &mut Counts, object: &ObjId, before: Share, after: Share, hint: ClientHint)
    requires has { has_count counts.old object.now ≡ true }
    requires enough { (w : Way) → one_if (share_by w before) ≤ counted_at w counts.old object.now }
    requires few { (w : Way) → counted_at w counts.old object.now ≤ 2 ^ 31 }
    ensures counts { (w : Way) (o : ObjId)
        → counted_at w counts.new o
        + (if share_by w before then one_if (same_id object.now o) else 0)
        ≡ counted_at w counts.old o
        + (if share_by w after then one_if (same_id object.now o) else 0) }
    ensures kept { (o : ObjId) → has_count counts.old o ≡ true → has_count counts.new o ≡ true }
{
    let count = count_of(counts, object);
    let rest = lower_count(count, before);
    put(counts, object, raise_count(rest, after, hint));
}

/// Returns the part that a client with these numbers loses in an object's counts as its tenure is forgotten.
fn lost_share(numbers: &Packed, held: bool) -> Share
    ensures { result ≡ lost_share held numbers.now }
{
    Share {
        holds: held && numbers.is_dirty_highest(),
        names: !numbers.is_for_good(),
    }
}

/// The tenure of a client that has these numbers of an object is forgotten.
fn release_one(counts: &mut Counts, object: &ObjId, numbers: &Packed, held: bool)
    requires { (w : Way) → one_if (loses w held numbers.now) ≤ counted_at w counts.old object.now }
    ensures counts { (w : Way) (o : ObjId)
        → counted_at w counts.new o
        + (if loses w held numbers.now then one_if (same_id object.now o) else 0)
        ≡ counted_at w counts.old o }
    ensures kept { (o : ObjId) → has_count counts.old o ≡ true → has_count counts.new o ≡ true }
{
    lower(counts, object, lost_share(numbers, held));
}

/// The tenure of a client of which these objects are kept is forgotten, and it was counted as a holder or not. It takes no memory.
pub fn release(counts: &mut Counts, objects: &Marks, held: bool)
    requires once { IsTrue (each_once (object_entries objects.now.entries)) }
    requires enough { (w : Way) (o : ObjId)
        → one_if (has_with (loses w held) (object_entries objects.now.entries) o)
        ≤ counted_at w counts.old o }
    ensures counts { (w : Way) (o : ObjId)
        → counted_at w counts.new o
        + one_if (has_with (loses w held) (object_entries objects.now.entries) o)
        ≡ counted_at w counts.old o }
    ensures kept { (o : ObjId) → has_count counts.old o ≡ true → has_count counts.new o ≡ true }
{
    for (object, numbers) in objects.iter() {
        release_one(counts, object, numbers, held);
    }
}

/// Makes a place for the count of each of these objects. No count changes, also where there is no memory.
pub fn touch_all(counts: &mut Counts, objects: &[ObjId]) -> Result<(), AllocError>
    ensures same { (w : Way) (o : ObjId) → counted_at w counts.new o ≡ counted_at w counts.old o }
    ensures ok { OnOk result
        ((o : ObjId) → is_in o objects.now ≡ true → has_count counts.new o ≡ true) }
{
    for object in objects {
        touch(counts, object)?;
    }
    Ok(())
}

/// As time passes from one moment to another, the tenure of a client whose lease is over is forgotten.
fn release_over(counts: &mut Counts, entry: &ClientEntry, from: u64, to: u64)
    requires later { from ≤ to }
    requires once { IsTrue (each_once entry.now.objects) }
    requires enough { (w : Way) (o : ObjId)
        → one_if (is_counted w from o entry.now) ≤ counted_at w counts.old o }
    ensures counts { (w : Way) (o : ObjId)
        → counted_at w counts.new o + one_if (is_counted w from o entry.now)
        ≡ counted_at w counts.old o + one_if (is_counted w to o (entry_after_lapse to entry.now)) }
    ensures kept { (o : ObjId) → has_count counts.old o ≡ true → has_count counts.new o ≡ true }
{
    let goes_on = entry.has_time_left(to);
    if goes_on {
        return;
    }
    let held = entry.has_time_left(from);
    release(counts, entry.objects(), held);
}

/// As time passes from one moment to another, forgets the tenure of a client whose lease is over, and answers the sums since. It takes no
/// memory.
pub fn end_tenure(
    entry: &mut ClientEntry,
    counts: &mut Counts,
    sums: Sums,
    from: u64,
    to: u64,
) -> Sums
    requires later { from ≤ to }
    requires once { IsTrue (each_once entry.old.objects) }
    requires numbered { IsTrue (each_has_number entry.old.objects) }
    requires enough { (w : Way) (o : ObjId)
        → one_if (is_counted w from o entry.old) ≤ counted_at w counts.old o }
    requires leased { one_if (has_time_left from entry.old) ≤ sums.leased }
    requires pairs { remembered_of from entry.old ≤ sums.pairs }
    requires few { (sums.leased ≤ 2 ^ 17) × (sums.pairs ≤ 2 ^ 65) }
    ensures entry { entry.new ≡ entry_after_lapse to entry.old }
    ensures counts { (w : Way) (o : ObjId)
        → counted_at w counts.new o + one_if (is_counted w from o entry.old)
        ≡ counted_at w counts.old o + one_if (is_counted w to o (entry_after_lapse to entry.old)) }
    ensures leased { result.leased + one_if (has_time_left from entry.old)
        ≡ sums.leased + one_if (has_time_left to (entry_after_lapse to entry.old)) }
    ensures pairs { result.pairs + remembered_of from entry.old
        ≡ sums.pairs + remembered_of to (entry_after_lapse to entry.old) }
{
    let before = table::sums_of(entry, from);
    release_over(counts, entry, from, to);
    entry.lapse(to);
    table::sums_with(sums, before, table::sums_of(entry, to))
}

/// The pairs that went as objects were forgotten: so many of a client and an object, and, where there were some, at which place
/// one that names such an object stood, as its count noted. The place is a hint.
#[derive(Clone, Copy)]
pub struct Gone {
    pub pairs: u128,
    pub hint: ClientHint,
}

/// Nobody holds or names these objects any more. Answers how many pairs went. It takes no memory.
pub fn forget_all(counts: &mut Counts, objects: &[ObjId]) -> Gone
    ensures counts { (w : Way) (o : ObjId)
        → counted_at w counts.new o
        ≡ (if is_in o objects.now then 0 else counted_at w counts.old o) }
    ensures pairs { result.pairs ≡ total_of (counted_at Naming counts.old) objects.now }
{
    let mut pairs: u128 = 0;
    let mut hint = FIRST_CLIENT;
    for object in objects {
        let count = take_out(counts, object);
        hint = first_hint(pairs, hint, &count);
        pairs += count.clients as u128;
    }
    Gone { pairs, hint }
}

/// The place that a count notes, where no pairs were met before, and the one that was noted then, where some were.
fn first_hint(pairs: u128, hint: ClientHint, count: &Count) -> ClientHint {
    if pairs == 0 { count.hint } else { hint }
}

/// Nobody holds or names an object any more. Answers what was counted of it.
fn take_out(counts: &mut Counts, object: &ObjId) -> Count
    ensures counts { (w : Way) (o : ObjId)
        → counted_at w counts.new o
        ≡ (if same_id object.now o then 0 else counted_at w counts.old o) }
    ensures value { result ≡ count_at counts.old object.now }
{
    let count = count_of(counts, object);
    forget(counts, object);
    count
}

/// True where some client names an object.
pub fn is_named(counts: &Counts, object: &ObjId) -> bool
    ensures { result ≡ is_named counts.now object.now }
{
    count_of(counts, object).clients > 0
}

/// Nobody holds or names an object any more. It takes no memory.
pub fn forget(counts: &mut Counts, object: &ObjId)
    ensures { (w : Way) (o : ObjId)
        → counted_at w counts.new o
        ≡ (if same_id object.now o then 0 else counted_at w counts.old o) }
{
    counts.swap_remove(object);
}

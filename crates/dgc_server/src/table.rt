//! Lists of clients, in the order of clients: those of one chunk.
ghost use Rattle.std.specs.Prelude.{◌≡◌, ℕ, true, ◌++◌, ◌+◌, ◌<◌, ◌≤◌, ◌^◌, length, filter, map, min, insert, remove, slice_set, OnOk, OnErr, IfOk, IsTrue, unwrap_or, MatchResult, vec_len, vec_capacity, slice_index_or, if◌then◌else◌};
ghost use Rattle.std.specs.List.{list_any, list_all, AllByRecursion};
ghost use Rattle.std.specs.Option.{option_copied};
ghost use Rattle.object_ids.specs.declared.ids.ObjId.{ObjId};
ghost use Rattle.history.specs.declared.limits.TheConstants.{END_OF_TIME, MAX_DURATION_MS};
ghost use Rattle.dgc_server.specs.Entry.{Entry, each_has_number, is_in, entry_without, is_entry_kept, has_time_left, entry_holds, row_of};
ghost use Rattle.dgc_server.specs.StandsForCalls.{each_once, is_in_order, entry_after};
ghost use Rattle.dgc_server.specs.HolderIndex.{Way, counted_at, has_count, is_counted, is_named, with_only, object_count, objects_in, one_if, entry_names, entry_sums, bound_of, IsSettled, IsCalm, IsNoted};
ghost use Rattle.dgc_server.specs.Table.{entry_of, no_entry, IsPlaceOf, with_entry, remembered_count};

use crate::entry::{ClientEntry, LeaseCall};
use crate::holders::{ClientHint, Counts};
use history::{LeaseList, LeaseRow};
use object_ids::{ObjId, Vmid};
use std::alloc::{AllocError, Global};
use std::cmp::Ordering;

/// The number of clients with time left, and that of remembered pairs.
#[derive(Clone, Copy)]
pub struct Sums {
    pub leased: usize,
    pub pairs: u128,
}

/// The change that a noted call made: what the client's entry added to the sums before and adds since, and when its lease ends since.
#[derive(Clone, Copy)]
pub struct Noted {
    pub before: Sums,
    pub after: Sums,
    pub until: u64,
}

/// The entry of a client, if it has one.
pub fn find<'a>(entries: &'a [ClientEntry], client: &Vmid) -> Option<&'a ClientEntry>
    requires { IsTrue (is_in_order entries.now) }
    ensures { let other = no_entry client.now in
        entry_of entries.now client.now ≡ unwrap_or (option_copied result) other }
{
    match place_of(entries, client) {
        Ok(i) => Some(&entries[i]),
        Err(_place) => None,
    }
}

/// Where a client's entry is, or where it would be inserted.
fn place_of(entries: &[ClientEntry], client: &Vmid) -> Result<usize, usize>
    requires { IsTrue (is_in_order entries.now) }
    ensures bound { MatchResult result (λ i. i < length entries.now) (λ i. i ≤ length entries.now) }
    ensures place { IsPlaceOf entries.now client.now result }
    ensures entry { MatchResult result
        (λ i. (d : Entry) → entry_of entries.now client.now ≡ slice_index_or entries.now i d)
        (λ i. entry_of entries.now client.now ≡ no_entry client.now) }
{
    let mut low: usize = 0;
    let mut high: usize = entries.len();
    while low < high {
        let middle = low + (high - low) / 2;
        match client.compare(entries[middle].client()) {
            Ordering::Less => high = middle,
            Ordering::Equal => return Ok(middle),
            Ordering::Greater => low = middle + 1,
        }
    }
    Err(low)
}

/// Notes a call of a client in the chunk of this index, by which it is granted a lease of this duration if it is a dirty, and answers what it changed.
/// The counts and sums are those of the moment `from`. It is refused only for want of memory, and then all is as it was.
pub fn note(
    alloc: Global,
    entries: &mut Vec<ClientEntry>,
    counts: &mut Counts,
    client: &Vmid,
    call: &LeaseCall<'_>,
    lease: u64,
    from: u64,
    at_chunk: usize,
) -> Result<Noted, AllocError>
    requires later { from ≤ call.now.time }
    requires early { call.now.time < END_OF_TIME }
    requires some { 1 ≤ lease }
    requires short { lease ≤ MAX_DURATION_MS }
    requires numbered { IsTrue (list_all (λ e. each_has_number e.objects) entries.old.items) }
    requires ordered { IsTrue (is_in_order entries.old.items) }
    requires once { IsTrue (list_all (λ e. each_once e.objects) entries.old.items) }
    requires has { (o : ObjId) → is_in o call.now.objects.now ≡ true
        → has_count counts.old o ≡ true }
    requires enough { (w : Way) (o : ObjId)
        → one_if (is_counted w from o (entry_of entries.old.items client.now))
        ≤ counted_at w counts.old o }
    requires few { (w : Way) (o : ObjId) → counted_at w counts.old o + 1 < 2 ^ 31 }
    ensures ok { OnOk result (entries.new.items ≡ with_entry
        (entry_after lease call.now.kind call.now.number.now call.now.objects.now call.now.time
        (entry_of entries.old.items client.now)) entries.old.items) }
    ensures counts { OnOk result
        ((w : Way) (o : ObjId) → let own = entry_of entries.old.items client.now in
        counted_at w counts.new o + one_if (is_counted w from o own)
        ≡ counted_at w counts.old o
        + one_if (is_counted w from o
        (entry_after lease call.now.kind call.now.number.now call.now.objects.now call.now.time
        own))) }
    ensures noted { IfOk result (λ noted. let own = entry_of entries.old.items client.now in
        IsNoted from own
        (entry_after lease call.now.kind call.now.number.now call.now.objects.now call.now.time own)
        noted) }
    ensures err { OnErr result (entries.new.items ≡ entries.old.items) }
    ensures same { OnErr result (counts.new ≡ counts.old) }
{
    match place_of(entries, client) {
        Ok(place) => note_entry(
            &mut entries[place],
            counts,
            call,
            lease,
            from,
            ClientHint::new(at_chunk, place),
        ),
        Err(place) => {
            entries.reserve(1)?;
            let mut entry = ClientEntry::fresh(alloc, client)?;
            let noted = note_entry(
                &mut entry,
                counts,
                call,
                lease,
                from,
                ClientHint::new(at_chunk, place),
            )?;
            insert_within(entries, place, entry);
            Ok(noted)
        }
    }
}

/// Notes a call in a client's entry, and answers what it changed. It is refused only for want of memory, and then all is as it was.
fn note_entry(
    entry: &mut ClientEntry,
    counts: &mut Counts,
    call: &LeaseCall<'_>,
    lease: u64,
    from: u64,
    hint: ClientHint,
) -> Result<Noted, AllocError>
    requires later { from ≤ call.now.time }
    requires early { call.now.time < END_OF_TIME }
    requires some { 1 ≤ lease }
    requires short { lease ≤ MAX_DURATION_MS }
    requires numbered { IsTrue (each_has_number entry.old.objects) }
    requires once { IsTrue (each_once entry.old.objects) }
    requires has { (o : ObjId) → is_in o call.now.objects.now ≡ true
        → has_count counts.old o ≡ true }
    requires enough { (w : Way) (o : ObjId)
        → one_if (is_counted w from o entry.old) ≤ counted_at w counts.old o }
    requires few { (w : Way) (o : ObjId) → counted_at w counts.old o + 1 < 2 ^ 31 }
    ensures ok { OnOk result
        (entry.new ≡ entry_after lease call.now.kind call.now.number.now call.now.objects.now
        call.now.time entry.old) }
    ensures counts { OnOk result
        ((w : Way) (o : ObjId) → counted_at w counts.new o + one_if (is_counted w from o entry.old)
        ≡ counted_at w counts.old o + one_if (is_counted w from o entry.new)) }
    ensures noted { IfOk result (λ noted. IsNoted from entry.old entry.new noted) }
    ensures err { OnErr result (entry.new ≡ entry.old) }
    ensures same { OnErr result (counts.new ≡ counts.old) }
{
    let before = sums_of(entry, from);
    entry.note(counts, call, lease, from, hint)?;
    Ok(Noted {
        before,
        after: sums_of(entry, from),
        until: entry.until(),
    })
}

/// Inserts an element, for which there is room.
pub fn insert_within<T: Drop>(list: &mut Vec<T>, place: usize, element: T)
    requires room { vec_len list.old < vec_capacity list.old }
    requires within { place ≤ vec_len list.old }
    ensures { list.new.items ≡ insert list.old.items place element }
{
    match list.insert(place, element) {
        Ok(()) => {}
        Err(_refused) => {}
    }
}

/// A moment before which no lease ends, where none ends before `bound` and one that ends at `until` was noted at the moment `time`; 0 where that one
/// has no time left.
pub fn bound_with(bound: u64, until: u64, time: u64) -> u64
    ensures { result ≡ bound_of time bound until }
{
    if time < until { bound.min(until) } else { 0 }
}

/// From a place on forgets what is kept of an object that at most so many clients name, and answers how many are left of that number.
pub fn walk(
    entries: &mut Vec<ClientEntry>,
    object: &ObjId,
    clients: u32,
    first: usize,
    time: u64,
) -> u32
    requires kept { IsTrue (list_all (is_entry_kept time) entries.old.items) }
    requires enough { length (filter (entry_names object.now) entries.old.items) ≤ clients }
    ensures same { filter (is_entry_kept time) (map (entry_without object.now) entries.new.items)
        ≡ filter (is_entry_kept time) (map (entry_without object.now) entries.old.items) }
    ensures kept { IsTrue (list_all (is_entry_kept time) entries.new.items) }
    ensures counted { result + length (filter (entry_names object.now) entries.old.items)
        ≡ clients + length (filter (entry_names object.now) entries.new.items) }
    ensures all { first ≡ 0 → length (filter (entry_names object.now) entries.new.items) ≡ 0 }
    ensures settled { (n : ℕ) → AllByRecursion (IsSettled time n) entries.old.items
        → AllByRecursion (IsSettled time n) entries.new.items }
{
    let mut to_go = clients;
    let mut i = first;
    while i < entries.len() {
        if to_go == 0 {
            return 0;
        }
        if entries[i].names(object) {
            drop_at(entries, object, i, time);
            to_go -= 1;
            continue;
        }
        i += 1;
    }
    to_go
}

/// From a place on keeps of each client the objects that are named, where at most so many pairs are to go, and answers how many are left of that
/// number.
pub fn keep_named(
    entries: &mut Vec<ClientEntry>,
    counts: &Counts,
    pairs: u128,
    first: usize,
) -> u128
    requires { objects_in entries.old.items
        ≤ pairs + objects_in (map (with_only (is_named counts.now)) entries.old.items) }
    ensures same { map (with_only (is_named counts.now)) entries.new.items
        ≡ map (with_only (is_named counts.now)) entries.old.items }
    ensures to_go { result + objects_in entries.old.items ≡ pairs + objects_in entries.new.items }
    ensures all { first ≡ 0
        → entries.new.items ≡ map (with_only (is_named counts.now)) entries.old.items }
    ensures calm { (m n : ℕ) → AllByRecursion (IsCalm m n) entries.old.items
        → AllByRecursion (IsCalm m n) entries.new.items }
{
    let mut to_go = pairs;
    let mut i = first;
    while i < entries.len() {
        if to_go == 0 {
            return 0;
        }
        to_go -= keep_at(entries, counts, i);
        i += 1;
    }
    to_go
}

/// Keeps of one client the objects that are named, and answers how many went.
fn keep_at(entries: &mut Vec<ClientEntry>, counts: &Counts, i: usize) -> u128
    requires { i < vec_len entries.old }
    ensures entries { (d : Entry)
        → entries.new.items
        ≡ slice_set entries.old.items i
        (with_only (is_named counts.now) (slice_index_or entries.old.items i d)) }
    ensures gone { (d : Entry)
        → result + object_count
        (with_only (is_named counts.now) (slice_index_or entries.old.items i d))
        ≡ object_count (slice_index_or entries.old.items i d) }
{
    entries[i].keep_named(counts) as u128
}

/// Forgets what is kept of an object at one client, and the client, if nothing is left of it.
fn drop_at(entries: &mut Vec<ClientEntry>, object: &ObjId, i: usize, time: u64)
    requires { i < vec_len entries.old }
    ensures { (d : Entry)
        → let next = entry_without object.now (slice_index_or entries.old.items i d) in
        entries.new.items
        ≡ (if is_entry_kept time next then slice_set entries.old.items i next
        else remove entries.old.items i) }
{
    entries[i].drop_object(object);
    if !entries[i].is_entry_kept(time) {
        entries.remove(i);
    }
}

/// Keeps the clients of which something is left.
pub fn keep(entries: &mut Vec<ClientEntry>, now: u64)
    ensures { entries.new.items ≡ filter (is_entry_kept now) entries.old.items }
{
    entries.retain(|entry| entry.is_entry_kept(now));
}

/// True where some client holds an object.
pub fn is_held(entries: &[ClientEntry], object: &ObjId, time: u64) -> bool
    ensures { result ≡ list_any (entry_holds time object.now) entries.now }
{
    entries.iter().any(|entry| entry.holds(object, time))
}

/// The number of clients that hold an object.
pub fn holders(entries: &[ClientEntry], object: &ObjId, time: u64) -> usize
    ensures { result ≡ length (filter (entry_holds time object.now) entries.now) }
{
    entries
        .iter()
        .filter(|entry| entry.holds(object, time))
        .count()
}

/// The number of clients with time left.
pub fn with_time_left(entries: &[ClientEntry], time: u64) -> usize
    ensures value { result ≡ length (filter (has_time_left time) entries.now) }
    ensures within { result ≤ length entries.now }
{
    entries
        .iter()
        .filter(|entry| entry.has_time_left(time))
        .count()
}

/// The sums over one client's entry.
pub fn sums_of(entry: &ClientEntry, time: u64) -> Sums
    requires { IsTrue (each_has_number entry.now.objects) }
    ensures value { result ≡ entry_sums time entry.now }
    ensures small { (result.leased ≤ 1) × (result.pairs < 2 ^ 64) }
{
    let leased = if entry.has_time_left(time) { 1 } else { 0 };
    Sums {
        leased,
        pairs: entry.remembered_count(time) as u128,
    }
}

/// The sums once a client's entry adds something else.
pub fn sums_with(sums: Sums, before: Sums, after: Sums) -> Sums
    requires leased { before.leased ≤ sums.leased }
    requires pairs { before.pairs ≤ sums.pairs }
    requires few { (sums.leased ≤ 2 ^ 17) × (sums.pairs ≤ 2 ^ 65) }
    requires small { (after.leased ≤ 1) × (after.pairs < 2 ^ 64) }
    ensures leased { result.leased + before.leased ≡ sums.leased + after.leased }
    ensures pairs { result.pairs + before.pairs ≡ sums.pairs + after.pairs }
{
    Sums {
        leased: sums.leased - before.leased + after.leased,
        pairs: sums.pairs - before.pairs + after.pairs,
    }
}

/// The number of remembered pairs of a client and an object.
pub fn remembered_pairs(entries: &[ClientEntry], time: u64) -> u128
    requires { IsTrue (list_all (λ e. each_has_number e.objects) entries.now) }
    ensures value { result ≡ remembered_count time entries.now }
    ensures small { result < 2 ^ 127 }
{
    let mut sum: u128 = 0;
    for entry in entries {
        sum += entry.remembered_count(time) as u128;
    }
    sum
}

/// The sums as time passes from one moment to another, where these are of the clients of a chunk and others.
pub fn sums_after(sums: Sums, entries: &[ClientEntry], from: u64, to: u64) -> Sums
    requires later { from ≤ to }
    requires numbered { IsTrue (list_all (λ e. each_has_number e.objects) entries.now) }
    requires leased { length (filter (has_time_left from) entries.now) ≤ sums.leased }
    requires pairs { remembered_count from entries.now ≤ sums.pairs }
    ensures leased { result.leased + length (filter (has_time_left from) entries.now)
        ≡ sums.leased + length (filter (has_time_left to) entries.now) }
    ensures pairs { result.pairs + remembered_count from entries.now
        ≡ sums.pairs + remembered_count to entries.now }
{
    let before = with_time_left(entries, from);
    let leased = with_time_left(entries, to);
    let remembered = remembered_pairs(entries, from);
    let pairs = remembered_pairs(entries, to);
    Sums {
        leased: sums.leased - before + leased,
        pairs: sums.pairs - remembered + pairs,
    }
}

/// The sums without so many pairs.
pub fn sums_without(sums: Sums, pairs: u128) -> Sums
    requires { pairs ≤ sums.pairs }
    ensures leased { result.leased ≡ sums.leased }
    ensures pairs { result.pairs + pairs ≡ sums.pairs }
{
    Sums {
        leased: sums.leased,
        pairs: sums.pairs - pairs,
    }
}

/// Appends the clients with time left, in order, with the ends of their leases.
pub fn append_rows(
    alloc: Global,
    rows: &mut LeaseList,
    entries: &[ClientEntry],
    time: u64,
) -> Result<(), AllocError>
    ensures { OnOk result
        (rows.new ≡ rows.old ++ map row_of (filter (has_time_left time) entries.now)) }
{
    for entry in entries {
        if entry.has_time_left(time) {
            rows.push(LeaseRow {
                client: entry.client().copy(alloc)?,
                until: entry.until(),
            })?;
        }
    }
    Ok(())
}

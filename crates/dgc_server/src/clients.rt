//! The clients of a lease table, in the order of clients. They stand in chunks, so that a new client moves few others.
ghost use Rattle.std.specs.Prelude.{◌≡◌, ℕ, [], ◌+◌, ◌++◌, ◌<◌, ◌≤◌, ◌^◌, length, filter, map, IsTrue, IfOk, OnOk, OnErr, true, vec_len, vec_capacity, slice_index_or, reverse as reversed, unwrap_or};
ghost use Rattle.std.specs.List.{list_all, AllByRecursion};
ghost use Rattle.std.specs.Option.{option_copied};
ghost use Rattle.std.specs.Ordering.{is_lt};
ghost use Rattle.object_ids.specs.declared.ids.ObjId.{ObjId};
ghost use Rattle.object_ids.specs.Client.{client_cmp};
ghost use Rattle.history.specs.declared.limits.TheConstants.{END_OF_TIME, MAX_DURATION_MS, MAX_PAIRS};
ghost use Rattle.dgc_server.specs.Entry.{Entry, each_has_number, entry_without, is_entry_kept, is_in};
ghost use Rattle.dgc_server.specs.StandsForCalls.{each_once, is_in_order, entry_after};
ghost use Rattle.dgc_server.specs.HolderIndex.{Way, counted_at, has_count, is_counted, is_named, one_if, entry_names, with_only, objects_in, sums_at, bound_of, IsIndexed, IsNoted};
ghost use Rattle.dgc_server.specs.Table.{entry_of, no_entry, with_entry, after_lapse};
ghost use Rattle.dgc_server.specs.Chunks.{all_of, ends_of, is_filled, IsChunkOf, IsBounded, IsBoard};
ghost use Rattle.dgc_server.specs.declared.clients.TheConstants.{CHUNK_LEN};

use crate::board::Board;
use crate::entry::{ClientEntry, LeaseCall};
use crate::holders::{ClientHint, Counts, Passed};
use crate::table::{self, Noted, Sums};
use crate::{drops, lapses};
use object_ids::{ObjId, Vmid};
use std::alloc::{AllocError, Global};
use std::cmp::Ordering;
use std::marker::Model;

/// The most clients that a chunk has.
const CHUNK_LEN: usize = 256;

/// The number of clients that stay in a chunk that is split.
const HALF_LEN: usize = 128;

/// Some clients that stand together in the list of clients.
pub struct Chunk {
    pub entries: Vec<ClientEntry>,
    /// No lease of them that goes on ends before this moment; 0 where something of them may have to be forgotten at once.
    pub least: u64,
}

// Written out, so that whoever owns one has one call at each exit, and not the drop of each field.
impl Drop for Chunk {
    fn drop(self) {
        let Chunk { entries, least: _ } = self;
        drop(entries);
    }
}

/// The clients of a moment, in their order. They stand in chunks of at most 256, so that a new client moves few others, and
/// so that a lease that ends is found by a search of the chunks' moments and a look at the clients of its own chunk. Contracts see a `ClientTable`, which has the one list.
pub struct Clients {
    board: Board,
    /// The moment as of which the clients are kept.
    moment: u64,
    /// No lease that goes on ends before this moment; 0 where something may have to be forgotten at once.
    next: u64,
}

// Written out, so that whoever owns one has one call at each exit, and not the drop of each field.
impl Drop for Clients {
    fn drop(self) {
        let Clients {
            board,
            moment: _,
            next: _,
        } = self;
        drop(board);
    }
}

impl Model for Clients {
    ghost use Rattle.dgc_server.specs.Table.{ClientTable};
    ghost use Rattle.dgc_server.specs.Chunks.{all_of, IsBoard};

    ghost Value = { ClientTable };

    ghost view = { λ a.
        record { moment = a.moment; next = a.next; entries = all_of a.board.chunks.items } };

    ghost invariant = { λ a. IsBoard a.moment a.next a.board };
}

impl Clients {
    /// No clients, at the moment 0.
    pub fn new(alloc: Global) -> Clients
        ensures entries { result.entries ≡ [] }
        ensures moment { result.moment ≡ 0 }
        ensures next { 0 < result.next }
    {
        Clients {
            board: Board::new(alloc),
            moment: 0,
            next: u64::MAX,
        }
    }

    /// The moment as of which the clients are kept.
    pub fn moment(&self) -> u64
        ensures { result ≡ self.now.moment }
    {
        self.moment
    }

    /// A moment before which no lease that goes on ends.
    pub fn next(&self) -> u64
        ensures { result ≡ self.now.next }
    {
        self.next
    }

    /// The chunks of clients, with their moments.
    pub fn board(&self) -> &Board
        ensures all { all_of result.now.chunks.items ≡ self.now.entries }
        ensures board { IsBoard self.now.moment self.now.next result.now }
    {
        &self.board
    }

    /// The chunks of clients.
    pub fn chunks(&self) -> &[Chunk]
        ensures all { all_of result.now ≡ self.now.entries }
        ensures filled { IsTrue (list_all is_filled result.now) }
    {
        &self.board.chunks
    }

    /// The entry of a client, if it has one.
    pub fn find<'a>(&'a self, client: &Vmid) -> Option<&'a ClientEntry>
        requires { IsTrue (is_in_order self.now.entries) }
        ensures { let other = no_entry client.now in
            entry_of self.now.entries client.now ≡ unwrap_or (option_copied result) other }
    {
        find_in(self.chunks(), client)
    }

    /// Notes a call of a client, by which it is granted a lease of this duration if it is a dirty, and answers what it changed. The counts and sums are
    /// those of the clients' moment. It is refused only for want of memory, and then all is as it was.
    pub fn note(
        &mut self,
        alloc: Global,
        counts: &mut Counts,
        client: &Vmid,
        call: &LeaseCall<'_>,
        lease: u64,
    ) -> Result<Noted, AllocError>
        requires later { self.old.moment ≤ call.now.time }
        requires early { call.now.time < END_OF_TIME }
        requires some { 1 ≤ lease }
        requires short { lease ≤ MAX_DURATION_MS }
        requires numbered { IsTrue (list_all (λ e. each_has_number e.objects) self.old.entries) }
        requires ordered { IsTrue (is_in_order self.old.entries) }
        requires once { IsTrue (list_all (λ e. each_once e.objects) self.old.entries) }
        requires few { (w : Way) (o : ObjId)
            → length (filter (is_counted w self.old.moment o) self.old.entries) ≤ MAX_PAIRS }
        requires has { (o : ObjId) → is_in o call.now.objects.now ≡ true
            → has_count counts.old o ≡ true }
        requires counted { (w : Way) (o : ObjId)
            → counted_at w counts.old o
            ≡ length (filter (is_counted w self.old.moment o) self.old.entries) }
        ensures ok { OnOk result (self.new.entries ≡ with_entry
            (entry_after lease call.now.kind call.now.number.now call.now.objects.now call.now.time
            (entry_of self.old.entries client.now)) self.old.entries) }
        ensures moment { OnOk result (self.new.moment ≡ self.old.moment) }
        ensures next { IfOk result
            (λ noted. self.new.next ≡ bound_of call.now.time self.old.next noted.until) }
        ensures counted { OnOk result ((w : Way) (o : ObjId)
            → counted_at w counts.new o
            ≡ length (filter (is_counted w self.old.moment o) self.new.entries)) }
        ensures noted { IfOk result (λ noted. let own = entry_of self.old.entries client.now in
            IsNoted self.old.moment own
            (entry_after lease call.now.kind call.now.number.now call.now.objects.now call.now.time
            own) noted) }
        ensures err { OnErr result (self.new ≡ self.old) }
        ensures same { OnErr result (counts.new ≡ counts.old) }
    {
        let from = self.moment;
        let noted = note_call(alloc, &mut self.board, counts, client, call, lease, from)?;
        self.next = table::bound_with(self.next, noted.until, call.time);
        Ok(noted)
    }

    /// As time passes to a moment, forgets what ended, and answers the sums since. Where nothing is due it looks at no client, and else at the
    /// clients of the chunks in which something may be. It takes no memory.
    pub fn pass(&mut self, counts: &mut Counts, sums: Sums, to: u64) -> Sums
        requires later { self.old.moment ≤ to }
        requires early { to < END_OF_TIME }
        requires once { IsTrue (list_all (λ e. each_once e.objects) self.old.entries) }
        requires numbered { IsTrue (list_all (λ e. each_has_number e.objects) self.old.entries) }
        requires indexed { IsIndexed self.old.moment self.old.next counts.old self.old.entries }
        requires sums { sums ≡ sums_at self.old.moment self.old.entries }
        requires few { (sums.leased ≤ 2 ^ 17) × (sums.pairs ≤ 2 ^ 65) }
        ensures entries { self.new.entries ≡ after_lapse to self.old.entries }
        ensures moment { self.new.moment ≡ to }
        ensures indexed { IsIndexed to self.new.next counts.new self.new.entries }
        ensures later { to < self.new.next }
        ensures sums { result ≡ sums_at to self.new.entries }
    {
        if to < self.next {
            self.moment = to;
            return sums;
        }
        let from = self.moment;
        let passed = lapses::pass_all(&mut self.board, counts, sums, from, to);
        self.board.keep_filled();
        self.moment = to;
        self.next = passed.next;
        passed.sums
    }

    /// Forgets what is kept of an object that so many clients name, and a client of which nothing is left then. It begins to look at this place,
    /// as a count notes it, and stops as soon as all that name the object were met; where none names it, it looks at none. It takes no memory.
    pub fn drop_object(&mut self, object: &ObjId, clients: u32, hint: ClientHint)
        requires kept { IsTrue (list_all (is_entry_kept self.old.moment) self.old.entries) }
        requires counted { clients ≡ length (filter (entry_names object.now) self.old.entries) }
        ensures entries { self.new.entries
            ≡ filter (is_entry_kept self.old.moment)
            (map (entry_without object.now) self.old.entries) }
        ensures moment { self.new.moment ≡ self.old.moment }
        ensures next { self.new.next ≡ self.old.next }
    {
        if clients == 0 {
            return;
        }
        let time = self.moment;
        drops::drop_object(&mut self.board, object, clients, hint, time);
    }

    /// Forgets what is kept of the objects that have no count any more, and the clients of which nothing is left then. So many pairs go. It looks
    /// at all objects of the clients from this place on, as a count notes it, and then from the first on, until as many went, and then once at each
    /// client's end. Where no pair goes it looks at no client. It takes no memory.
    pub fn drop_objects(&mut self, counts: &Counts, pairs: u128, hint: ClientHint)
        requires kept { IsTrue (list_all (is_entry_kept self.old.moment) self.old.entries) }
        requires pairs { pairs + objects_in (map (with_only (is_named counts.now)) self.old.entries)
            ≡ objects_in self.old.entries }
        ensures entries { self.new.entries
            ≡ filter (is_entry_kept self.old.moment)
            (map (with_only (is_named counts.now)) self.old.entries) }
        ensures moment { self.new.moment ≡ self.old.moment }
        ensures next { self.new.next ≡ self.old.next }
    {
        if pairs == 0 {
            return;
        }
        let time = self.moment;
        drops::drop_objects(&mut self.board, counts, pairs, hint, time);
    }
}

// ---- the search

/// Returns whether a client comes before the first of a chunk.
fn is_before(client: &Vmid, chunk: &Chunk) -> bool
    requires { IsTrue (is_filled chunk.now) }
    ensures { (d : Entry)
        → result ≡ is_lt
        (client_cmp client.now (slice_index_or chunk.now.entries.items 0 d).client) }
{
    match client.compare(chunk.entries[0].client()) {
        Ordering::Less => true,
        Ordering::Equal | Ordering::Greater => false,
    }
}

/// The index of the chunk in which a client stands, or is to be inserted.
fn chunk_of(chunks: &[Chunk], client: &Vmid) -> usize
    requires some { 0 < length chunks.now }
    requires ordered { IsTrue (is_in_order (all_of chunks.now)) }
    requires filled { IsTrue (list_all is_filled chunks.now) }
    ensures bound { result < length chunks.now }
    ensures place { IsChunkOf chunks.now client.now result }
    ensures entry { (d : Chunk)
        → entry_of (all_of chunks.now) client.now
        ≡ entry_of (slice_index_or chunks.now result d).entries.items client.now }
{
    let mut low: usize = 0;
    let mut high: usize = chunks.len();
    while low < high {
        let middle = low + (high - low) / 2;
        if is_before(client, &chunks[middle]) {
            high = middle;
            continue;
        }
        low = middle + 1;
    }
    if low == 0 {
        return 0;
    }
    low - 1
}

/// The entry of a client in these chunks, if it has one.
fn find_in<'a>(chunks: &'a [Chunk], client: &Vmid) -> Option<&'a ClientEntry>
    requires ordered { IsTrue (is_in_order (all_of chunks.now)) }
    requires filled { IsTrue (list_all is_filled chunks.now) }
    ensures { let other = no_entry client.now in
        entry_of (all_of chunks.now) client.now ≡ unwrap_or (option_copied result) other }
{
    if chunks.is_empty() {
        return None;
    }
    let i = chunk_of(chunks, client);
    table::find(&chunks[i].entries, client)
}

// ---- a call

/// Moves the back half of a full list into a list that has room for it.
fn split_into(entries: &mut Vec<ClientEntry>, back: &mut Vec<ClientEntry>)
    requires long { CHUNK_LEN ≤ vec_len entries.old }
    requires none { back.old.items ≡ [] }
    requires empty { vec_len back.old ≡ 0 }
    requires room { vec_len entries.old ≤ vec_capacity back.old }
    ensures parts { entries.old.items ≡ entries.new.items ++ back.new.items }
    ensures front { 0 < length entries.new.items }
    ensures back { 0 < length back.new.items }
{
    move_back(entries, back);
    back.reverse();
}

/// Moves what stands behind the first half into a list that has room for it, the last first.
fn move_back(entries: &mut Vec<ClientEntry>, back: &mut Vec<ClientEntry>)
    requires long { CHUNK_LEN ≤ vec_len entries.old }
    requires none { back.old.items ≡ [] }
    requires empty { vec_len back.old ≡ 0 }
    requires room { vec_len entries.old ≤ vec_capacity back.old }
    ensures parts { entries.old.items ≡ entries.new.items ++ reversed back.new.items }
    ensures front { 0 < vec_len entries.new }
    ensures back { 0 < vec_len back.new }
{
    while entries.len() > HALF_LEN {
        match entries.pop() {
            Some(entry) => back.push_reserved(entry),
            None => return,
        }
    }
}

/// Splits the chunk of a client, if it is full, so that there is a place for one more, also where the client is in it. It is refused only for want
/// of memory.
fn split_full(alloc: Global, board: &mut Board, client: &Vmid) -> Result<(), AllocError>
    requires some { 0 < length board.old.chunks.items }
    requires ordered { IsTrue (is_in_order (all_of board.old.chunks.items)) }
    requires filled { IsTrue (list_all is_filled board.old.chunks.items) }
    requires ends { board.old.ends.items ≡ ends_of board.old.chunks.items }
    ensures same { all_of board.new.chunks.items ≡ all_of board.old.chunks.items }
    ensures some { 0 < length board.new.chunks.items }
    ensures filled { IsTrue (list_all is_filled board.new.chunks.items) }
    ensures bounded { (m n : ℕ) → AllByRecursion (IsBounded m n) board.old.chunks.items
        → AllByRecursion (IsBounded m n) board.new.chunks.items }
    ensures ends { board.new.ends.items ≡ ends_of board.new.chunks.items }
{
    let at_chunk = chunk_of(&board.chunks, client);
    let len = board.chunks[at_chunk].entries.len();
    if len < CHUNK_LEN {
        return Ok(());
    }
    board.reserve()?;
    let mut entries = Vec::with_capacity(alloc, len)?;
    let chunk = &mut board.chunks[at_chunk];
    split_into(&mut chunk.entries, &mut entries);
    let least = chunk.least;
    board.insert(at_chunk + 1, Chunk { entries, least });
    Ok(())
}

/// Notes a call of a client in its chunk, which is split first if it is full. It is refused only for want of memory, and then the list is as it was.
fn note_call(
    alloc: Global,
    board: &mut Board,
    counts: &mut Counts,
    client: &Vmid,
    call: &LeaseCall<'_>,
    lease: u64,
    from: u64,
) -> Result<Noted, AllocError>
    requires later { from ≤ call.now.time }
    requires early { call.now.time < END_OF_TIME }
    requires some { 1 ≤ lease }
    requires short { lease ≤ MAX_DURATION_MS }
    requires numbered { IsTrue
        (list_all (λ e. each_has_number e.objects) (all_of board.old.chunks.items)) }
    requires ordered { IsTrue (is_in_order (all_of board.old.chunks.items)) }
    requires once { IsTrue (list_all (λ e. each_once e.objects) (all_of board.old.chunks.items)) }
    requires few { (w : Way) (o : ObjId)
        → length (filter (is_counted w from o) (all_of board.old.chunks.items)) ≤ MAX_PAIRS }
    requires has { (o : ObjId) → is_in o call.now.objects.now ≡ true
        → has_count counts.old o ≡ true }
    requires counted { (w : Way) (o : ObjId)
        → counted_at w counts.old o
        ≡ length (filter (is_counted w from o) (all_of board.old.chunks.items)) }
    requires filled { IsTrue (list_all is_filled board.old.chunks.items) }
    requires ends { board.old.ends.items ≡ ends_of board.old.chunks.items }
    ensures ok { OnOk result (all_of board.new.chunks.items ≡ with_entry
        (entry_after lease call.now.kind call.now.number.now call.now.objects.now call.now.time
        (entry_of (all_of board.old.chunks.items) client.now)) (all_of board.old.chunks.items)) }
    ensures counted { OnOk result
        ((w : Way) (o : ObjId)
        → counted_at w counts.new o
        ≡ length (filter (is_counted w from o) (all_of board.new.chunks.items))) }
    ensures noted { IfOk result
        (λ noted. let own = entry_of (all_of board.old.chunks.items) client.now in
        IsNoted from own
        (entry_after lease call.now.kind call.now.number.now call.now.objects.now call.now.time own)
        noted) }
    ensures filled { IsTrue (list_all is_filled board.new.chunks.items) }
    ensures bounded { IfOk result
        (λ noted. (n : ℕ) → n < 2 ^ 64 → AllByRecursion (IsBounded from n) board.old.chunks.items
        → AllByRecursion (IsBounded from (bound_of call.now.time n noted.until))
        board.new.chunks.items) }
    ensures err { OnErr result (all_of board.new.chunks.items ≡ all_of board.old.chunks.items) }
    ensures still { OnErr result
        ((n : ℕ) → AllByRecursion (IsBounded from n) board.old.chunks.items
        → AllByRecursion (IsBounded from n) board.new.chunks.items) }
    ensures same { OnErr result (counts.new ≡ counts.old) }
    ensures ends { board.new.ends.items ≡ ends_of board.new.chunks.items }
{
    if board.chunks.is_empty() {
        return note_first(alloc, board, counts, client, call, lease, from);
    }
    split_full(alloc, board, client)?;
    note_own(alloc, board, counts, client, call, lease, from)
}

/// Notes a call in the first chunk of all. It is refused only for want of memory, and then all is as it was.
fn note_first(
    alloc: Global,
    board: &mut Board,
    counts: &mut Counts,
    client: &Vmid,
    call: &LeaseCall<'_>,
    lease: u64,
    from: u64,
) -> Result<Noted, AllocError>
    requires none { board.old.chunks.items ≡ [] }
    requires later { from ≤ call.now.time }
    requires early { call.now.time < END_OF_TIME }
    requires some { 1 ≤ lease }
    requires short { lease ≤ MAX_DURATION_MS }
    requires has { (o : ObjId) → is_in o call.now.objects.now ≡ true
        → has_count counts.old o ≡ true }
    requires few { (w : Way) (o : ObjId) → counted_at w counts.old o + 1 < 2 ^ 31 }
    requires ends { board.old.ends.items ≡ ends_of board.old.chunks.items }
    ensures ok { OnOk result (all_of board.new.chunks.items ≡ with_entry
        (entry_after lease call.now.kind call.now.number.now call.now.objects.now call.now.time
        (entry_of (all_of board.old.chunks.items) client.now)) (all_of board.old.chunks.items)) }
    ensures counts { OnOk result
        ((w : Way) (o : ObjId) → let own = entry_of (all_of board.old.chunks.items) client.now in
        counted_at w counts.new o + one_if (is_counted w from o own)
        ≡ counted_at w counts.old o
        + one_if (is_counted w from o
        (entry_after lease call.now.kind call.now.number.now call.now.objects.now call.now.time
        own))) }
    ensures noted { IfOk result
        (λ noted. let own = entry_of (all_of board.old.chunks.items) client.now in
        IsNoted from own
        (entry_after lease call.now.kind call.now.number.now call.now.objects.now call.now.time own)
        noted) }
    ensures filled { IsTrue (list_all is_filled board.new.chunks.items) }
    ensures bounded { IfOk result
        (λ noted. (n : ℕ) → n < 2 ^ 64
        → AllByRecursion (IsBounded from (bound_of call.now.time n noted.until))
        board.new.chunks.items) }
    ensures err { OnErr result (board.new.chunks.items ≡ board.old.chunks.items) }
    ensures same { OnErr result (counts.new ≡ counts.old) }
    ensures ends { board.new.ends.items ≡ ends_of board.new.chunks.items }
{
    board.reserve()?;
    let mut chunk = Chunk {
        entries: Vec::new(alloc),
        least: u64::MAX,
    };
    let noted = note_in(alloc, &mut chunk, counts, client, call, lease, from, 0)?;
    board.insert(0, chunk);
    Ok(noted)
}

/// Notes a call in the chunk of the client. It is refused only for want of memory, and then all is as it was.
fn note_own(
    alloc: Global,
    board: &mut Board,
    counts: &mut Counts,
    client: &Vmid,
    call: &LeaseCall<'_>,
    lease: u64,
    from: u64,
) -> Result<Noted, AllocError>
    requires some_chunk { 0 < length board.old.chunks.items }
    requires later { from ≤ call.now.time }
    requires early { call.now.time < END_OF_TIME }
    requires some { 1 ≤ lease }
    requires short { lease ≤ MAX_DURATION_MS }
    requires numbered { IsTrue
        (list_all (λ e. each_has_number e.objects) (all_of board.old.chunks.items)) }
    requires ordered { IsTrue (is_in_order (all_of board.old.chunks.items)) }
    requires once { IsTrue (list_all (λ e. each_once e.objects) (all_of board.old.chunks.items)) }
    requires has { (o : ObjId) → is_in o call.now.objects.now ≡ true
        → has_count counts.old o ≡ true }
    requires enough { (w : Way) (o : ObjId)
        → one_if (is_counted w from o (entry_of (all_of board.old.chunks.items) client.now))
        ≤ counted_at w counts.old o }
    requires few { (w : Way) (o : ObjId) → counted_at w counts.old o + 1 < 2 ^ 31 }
    requires filled { IsTrue (list_all is_filled board.old.chunks.items) }
    requires ends { board.old.ends.items ≡ ends_of board.old.chunks.items }
    ensures ok { OnOk result (all_of board.new.chunks.items ≡ with_entry
        (entry_after lease call.now.kind call.now.number.now call.now.objects.now call.now.time
        (entry_of (all_of board.old.chunks.items) client.now)) (all_of board.old.chunks.items)) }
    ensures counts { OnOk result
        ((w : Way) (o : ObjId) → let own = entry_of (all_of board.old.chunks.items) client.now in
        counted_at w counts.new o + one_if (is_counted w from o own)
        ≡ counted_at w counts.old o
        + one_if (is_counted w from o
        (entry_after lease call.now.kind call.now.number.now call.now.objects.now call.now.time
        own))) }
    ensures noted { IfOk result
        (λ noted. let own = entry_of (all_of board.old.chunks.items) client.now in
        IsNoted from own
        (entry_after lease call.now.kind call.now.number.now call.now.objects.now call.now.time own)
        noted) }
    ensures filled { IsTrue (list_all is_filled board.new.chunks.items) }
    ensures bounded { IfOk result
        (λ noted. (n : ℕ) → AllByRecursion (IsBounded from n) board.old.chunks.items
        → AllByRecursion (IsBounded from (bound_of call.now.time n noted.until))
        board.new.chunks.items) }
    ensures err { OnErr result (all_of board.new.chunks.items ≡ all_of board.old.chunks.items) }
    ensures still { OnErr result
        ((n : ℕ) → AllByRecursion (IsBounded from n) board.old.chunks.items
        → AllByRecursion (IsBounded from n) board.new.chunks.items) }
    ensures same { OnErr result (counts.new ≡ counts.old) }
    ensures ends { board.new.ends.items ≡ ends_of board.new.chunks.items }
{
    let at_chunk = chunk_of(&board.chunks, client);
    let noted = note_in(
        alloc,
        &mut board.chunks[at_chunk],
        counts,
        client,
        call,
        lease,
        from,
        at_chunk,
    );
    board.note_end(at_chunk);
    noted
}

/// Notes a call of a client in the chunk of this index. It is refused only for want of memory, and then all is as it was.
fn note_in(
    alloc: Global,
    chunk: &mut Chunk,
    counts: &mut Counts,
    client: &Vmid,
    call: &LeaseCall<'_>,
    lease: u64,
    from: u64,
    at_chunk: usize,
) -> Result<Noted, AllocError>
    requires later { from ≤ call.now.time }
    requires early { call.now.time < END_OF_TIME }
    requires some { 1 ≤ lease }
    requires short { lease ≤ MAX_DURATION_MS }
    requires numbered { IsTrue (list_all (λ e. each_has_number e.objects) chunk.old.entries.items) }
    requires ordered { IsTrue (is_in_order chunk.old.entries.items) }
    requires once { IsTrue (list_all (λ e. each_once e.objects) chunk.old.entries.items) }
    requires has { (o : ObjId) → is_in o call.now.objects.now ≡ true
        → has_count counts.old o ≡ true }
    requires enough { (w : Way) (o : ObjId)
        → one_if (is_counted w from o (entry_of chunk.old.entries.items client.now))
        ≤ counted_at w counts.old o }
    requires few { (w : Way) (o : ObjId) → counted_at w counts.old o + 1 < 2 ^ 31 }
    ensures ok { OnOk result (chunk.new.entries.items ≡ with_entry
        (entry_after lease call.now.kind call.now.number.now call.now.objects.now call.now.time
        (entry_of chunk.old.entries.items client.now)) chunk.old.entries.items) }
    ensures counts { OnOk result
        ((w : Way) (o : ObjId) → let own = entry_of chunk.old.entries.items client.now in
        counted_at w counts.new o + one_if (is_counted w from o own)
        ≡ counted_at w counts.old o
        + one_if (is_counted w from o
        (entry_after lease call.now.kind call.now.number.now call.now.objects.now call.now.time
        own))) }
    ensures noted { IfOk result (λ noted. let own = entry_of chunk.old.entries.items client.now in
        IsNoted from own
        (entry_after lease call.now.kind call.now.number.now call.now.objects.now call.now.time own)
        noted) }
    ensures least { IfOk result
        (λ noted. chunk.new.least ≡ bound_of call.now.time chunk.old.least noted.until) }
    ensures err { OnErr result (chunk.new.entries.items ≡ chunk.old.entries.items) }
    ensures still { OnErr result (chunk.new.least ≡ chunk.old.least) }
    ensures same { OnErr result (counts.new ≡ counts.old) }
{
    let noted = table::note(
        alloc,
        &mut chunk.entries,
        counts,
        client,
        call,
        lease,
        from,
        at_chunk,
    )?;
    chunk.least = table::bound_with(chunk.least, noted.until, call.time);
    Ok(noted)
}

//! A lease table's record of one client.
ghost use Rattle.std.specs.Prelude.{◌≡◌, ◌+◌, ◌<◌, ◌≤◌, ◌^◌, length, max, IsTrue, IfOk, OnOk, OnErr, true, if◌then◌else◌};
ghost use Rattle.object_ids.specs.declared.ids.ObjId.{ObjId};
ghost use Rattle.history.specs.Leases.{is_dirty_kind};
ghost use Rattle.history.specs.declared.limits.TheConstants.{END_OF_TIME, MAX_DURATION_MS};
ghost use Rattle.dgc_server.specs.Numbers.{is_dirty_highest};
ghost use Rattle.dgc_server.specs.Entry.{has_time_left, each_has_number, entry_holds, remembered_of, fresh_of, numbers_of, has_object, is_in, entry_after_lapse, entry_without, is_entry_kept, object_entries};
ghost use Rattle.dgc_server.specs.StandsForCalls.{each_once, entry_after};
ghost use Rattle.dgc_server.specs.Table.{no_entry};
ghost use Rattle.dgc_server.specs.HolderIndex.{Way, counted_at, has_count, one_if, is_counted, is_named, with_only};

use crate::holders::{ClientHint, Counts};
use crate::marks::{self, Marks};
use crate::numbers::Numbers;
use history::CallKind;
use object_ids::{ObjId, Vmid};
use std::alloc::{AllocError, Global};
use std::marker::Model;

/// A lease call at a moment, as a client's entry notes it.
#[derive(Clone, Copy)]
pub struct LeaseCall<'a> {
    pub kind: CallKind,
    pub number: &'a i64,
    pub objects: &'a [ObjId],
    pub time: u64,
}

/// A client with the end of its lease and the objects that it named. Contracts see it as an `Entry`. It is small, so that a list of many
/// is quickly searched for the leases that end and quickly makes room for one more.
pub struct ClientEntry {
    until: u64,
    kept: Box<Kept>,
}

/// The record of a client without the end of its lease.
struct Kept {
    client: Vmid,
    objects: Marks,
}

// Written out, so that whoever owns one has one call at each exit, and not the drop of each field.
impl Drop for ClientEntry {
    fn drop(self) {
        let ClientEntry { until: _, kept } = self;
        drop(kept);
    }
}

impl Drop for Kept {
    fn drop(self) {
        let Kept { client, objects } = self;
        drop(client);
        drop(objects);
    }
}

impl Model for ClientEntry {
    ghost use Rattle.std.specs.Box.{box_value};
    ghost use Rattle.dgc_server.specs.Entry.{Entry, object_entries};

    ghost Value = { Entry };

    ghost view = { λ e. record {
      client = (box_value e.kept).client;
      until = e.until;
      objects = object_entries (box_value e.kept).objects.entries;
    } };
}

impl ClientEntry {
    /// A client of which nothing is kept yet.
    pub fn fresh(alloc: Global, client: &Vmid) -> Result<ClientEntry, AllocError>
        ensures { IfOk result (λ entry. entry ≡ no_entry client.now) }
    {
        let kept = Kept {
            client: client.copy(alloc)?,
            objects: Marks::new(alloc),
        };
        Ok(ClientEntry {
            until: 0,
            kept: Box::new(alloc, kept)?,
        })
    }

    /// The client.
    pub fn client(&self) -> &Vmid
        ensures { result.now ≡ self.now.client }
    {
        &self.kept.client
    }

    /// The objects that the client named.
    pub fn objects(&self) -> &Marks
        ensures { object_entries result.now.entries ≡ self.now.objects }
    {
        &self.kept.objects
    }

    /// The moment at which the lease ends, 0 where there is none.
    pub fn until(&self) -> u64
        ensures { result ≡ self.now.until }
    {
        self.until
    }

    /// True where the lease ends after this moment.
    pub fn has_time_left(&self, time: u64) -> bool
        ensures { result ≡ has_time_left time self.now }
    {
        time < self.until
    }

    /// The numbers that count for an object.
    pub fn numbers_of(&self, object: &ObjId) -> Numbers
        ensures { result ≡ numbers_of self.now.objects object.now }
    {
        self.kept.objects.numbers_of(object)
    }

    /// True where the client names an object: numbers of it are kept.
    pub fn names(&self, object: &ObjId) -> bool
        ensures { result ≡ has_object self.now.objects object.now }
    {
        self.kept.objects.names(object)
    }

    /// True where the client holds an object at this moment.
    pub fn holds(&self, object: &ObjId, time: u64) -> bool
        ensures { result ≡ entry_holds time object.now self.now }
    {
        self.has_time_left(time) && self.numbers_of(object).is_dirty_highest()
    }

    /// The number of objects that make a remembered pair with the client at this moment.
    pub fn remembered_count(&self, time: u64) -> usize
        requires { IsTrue (each_has_number self.now.objects) }
        ensures { result ≡ remembered_of time self.now }
    {
        marks::remembered_in(&self.kept.objects, time < self.until)
    }

    /// The number of these objects that don't make a remembered pair with the client at this moment, each
    /// counted once.
    pub fn fresh_among(&self, alloc: Global, named: &[ObjId], time: u64) -> usize
        ensures { result ≡ fresh_of time self.now named.now }
    {
        marks::fresh_count(alloc, &self.kept.objects, named, time < self.until)
    }

    /// Notes a call, by which the client is granted a lease of this duration if it is a dirty. The counts are those of the moment `from`, and change
    /// with what the client holds and names. They note its place in the list of clients. It is refused only for want of memory, and then all
    /// is as it was.
    pub fn note(
        &mut self,
        counts: &mut Counts,
        call: &LeaseCall<'_>,
        lease: u64,
        from: u64,
        hint: ClientHint,
    ) -> Result<(), AllocError>
        requires later { from ≤ call.now.time }
        requires early { call.now.time < END_OF_TIME }
        requires some { 1 ≤ lease }
        requires short { lease ≤ MAX_DURATION_MS }
        requires once { IsTrue (each_once self.old.objects) }
        requires has { (o : ObjId) → is_in o call.now.objects.now ≡ true
            → has_count counts.old o ≡ true }
        requires enough { (w : Way) (o : ObjId)
            → one_if (is_counted w from o self.old) ≤ counted_at w counts.old o }
        requires few { (w : Way) (o : ObjId) → counted_at w counts.old o + 1 < 2 ^ 31 }
        ensures ok { OnOk result
            (self.new ≡ entry_after lease call.now.kind call.now.number.now call.now.objects.now
            call.now.time self.old) }
        ensures counts { OnOk result
            ((w : Way) (o : ObjId)
            → counted_at w counts.new o + one_if (is_counted w from o self.old)
            ≡ counted_at w counts.old o + one_if (is_counted w from o self.new)) }
        ensures err { OnErr result (self.new ≡ self.old) }
        ensures same { OnErr result (counts.new ≡ counts.old) }
    {
        let kept = &mut *self.kept;
        let left = call.time < self.until;
        marks::make_room(&mut kept.objects, call.objects, left)?;
        let held = from < self.until;
        let until = until_after(call.kind, call.time + lease, self.until);
        marks::note(
            &mut kept.objects,
            counts,
            call.objects,
            call.kind,
            call.number,
            left,
            held,
            hint,
        );
        self.until = until;
        Ok(())
    }

    /// Forgets the tenure, if the lease is over at this moment.
    pub fn lapse(&mut self, now: u64)
        ensures { self.new ≡ entry_after_lapse now self.old }
    {
        let is_over = now >= self.until;
        marks::lapse(&mut self.kept.objects, is_over);
    }

    /// Forgets the numbers of an object.
    pub fn drop_object(&mut self, object: &ObjId)
        ensures { self.new ≡ entry_without object.now self.old }
    {
        self.kept.objects.forget_object(object);
    }

    /// Keeps the objects that some client names, as the counts say, and answers how many went.
    pub fn keep_named(&mut self, counts: &Counts) -> usize
        ensures entry { self.new ≡ with_only (is_named counts.now) self.old }
        ensures gone { result + length self.new.objects ≡ length self.old.objects }
    {
        marks::keep_named(&mut self.kept.objects, counts)
    }

    /// True where there is something to keep at this moment: time left, or an object.
    pub fn is_entry_kept(&self, now: u64) -> bool
        ensures { result ≡ is_entry_kept now self.now }
    {
        now < self.until || !self.kept.objects.is_empty()
    }
}

/// The end of a lease after a call, where a dirty is granted until `end`: it never falls.
fn until_after(kind: CallKind, end: u64, until: u64) -> u64
    ensures { result ≡ (if is_dirty_kind kind then max end until else until) }
{
    match kind {
        CallKind::Dirty => end.max(until),
        CallKind::Weak | CallKind::Strong => until,
    }
}

//! Entries of a port in no bytes.
ghost use Rattle.std.specs.Prelude.{◌≡◌, ◌<◌, ◌^◌, ◌++◌, ◌∷◌, [], if◌then◌else◌};
ghost use Rattle.space.specs.Entries.{end_of};
ghost use Rattle.ports.specs.Balance.{calls_in, is_start};
ghost use Rattle.ports.specs.Ports.{abandoned_at, entries_of};
ghost use Rattle.ports.specs.ToldEntries.{entries_with};

use crate::asked_rows::is_started;
use history::{Ask, Refused, Turn};
use object_ids::ObjId;
use past::Past;
use std::fmt;
use std::marker::Model;
use std::snapshot::Snapshot;

/// A port's record of one call. A snapshot takes no bytes.
#[derive(Drop)]
pub enum ToldEntry {
    /// A turn: its moment, what was asked, and the answer.
    Answered(Snapshot<u64>, Snapshot<Ask>, Snapshot<Result<Turn, Refused>>),
    /// A call that was ended without an answer: the moment, its object, and the place of the event.
    GivenUp(Snapshot<u64>, Snapshot<ObjId>, Snapshot<u64>),
}

/// The entries of a port, oldest first. They exist in proofs alone, and appending takes no memory. Contracts see the list of them.
pub struct ToldLog {
    entries: Past<ToldEntry>,
    /// The number of entries that began a call, where it is below 2^64.
    calls: u64,
}

// Written out, so that whoever owns one has one call at each exit.
impl Drop for ToldLog {
    fn drop(self) {
        let ToldLog { entries, calls: _ } = self;
        drop(entries);
    }
}

impl fmt::Debug for ToldLog {
    fn fmt<W: fmt::Write>(&self, f: &mut fmt::Formatter<W>) -> fmt::Result {
        f.debug_struct("ToldLog").finish_non_exhaustive()
    }
}

impl Model for ToldLog {
    ghost use Rattle.std.specs.Prelude.{◌≡◌, ◌<◌, ◌^◌, List};
    ghost use Rattle.space.specs.declared.asked.Asked.{Asked};
    ghost use Rattle.ports.specs.Balance.{calls_in};
    ghost use Rattle.ports.specs.ToldEntries.{entries_told};

    ghost Value = { List Asked };

    ghost view = { λ l. entries_told l.entries };

    ghost invariant = { λ l. calls_in (entries_told l.entries) < 2 ^ 64
        → l.calls ≡ calls_in (entries_told l.entries) };
}

impl ToldLog {
    /// The empty list.
    pub fn new() -> ToldLog
        ensures { result ≡ [] }
    {
        ToldLog {
            entries: Past::new(),
            calls: 0,
        }
    }

    /// Returns the number of entries that began a call, where it is below 2^64.
    pub fn calls(&self) -> u64
        ensures { calls_in self.now < 2 ^ 64 → result ≡ calls_in self.now }
    {
        self.calls
    }

    /// Appends the entry of a turn, if it has one: a turn for which there was no memory has none.
    pub fn push_turn(&mut self, moment: u64, ask: Snapshot<Ask>, answer: &Result<Turn, Refused>)
        ensures { self.new ≡ self.old ++ entries_of moment ask.value answer.now }
    {
        let told = ToldEntry::Answered(Snapshot::of(&moment), ask, Snapshot::of(answer));
        self.push(told, is_start(answer));
    }

    /// Appends the entry of a call that was ended without an answer, at this place of the history.
    pub fn push_abandoned(&mut self, moment: u64, object: ObjId, place: u64)
        ensures { self.new ≡ self.old ++ abandoned_at moment object place ∷ [] }
    {
        let told = ToldEntry::GivenUp(
            Snapshot::of(&moment),
            Snapshot::of(&object),
            Snapshot::of(&place),
        );
        self.push(told, false);
    }

    /// Appends the entries of one call or turn, which begins a call or doesn't.
    #[tactic(auto, using(crate::proofs::ToldLaws::told_more))]
    fn push(&mut self, told: ToldEntry, begins: bool)
        requires { calls_in (entries_with told) ≡ (if begins then 1 else 0) }
        ensures { self.new ≡ self.old ++ entries_with told }
    {
        self.entries.push(&told);
        self.calls = self.calls.saturating_add(u64::from(begins));
    }
}

/// Returns whether a turn that was answered so began a call.
fn is_start(answer: &Result<Turn, Refused>) -> bool
    ensures { result ≡ is_start (end_of answer.now) }
{
    match answer {
        Ok(turn) => is_started(&turn.reply),
        Err(_refused) => false,
    }
}

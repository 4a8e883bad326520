//! A port over a pass of a lock.
ghost use Rattle.std.specs.Prelude.{◌≡◌, ℕ, ◌-◌, ◌^◌, ◌<◌, ◌≤◌, ◌++◌, ◌∷◌, [], refl};
ghost use mathlib.Core.Path.{◌∙◌};
ghost use Rattle.history.specs.declared.limits.TheConstants.{END_OF_TIME};
ghost use Rattle.space.specs.TurnAnswers.{IsAnswerTo};
ghost use Rattle.ports.specs.Ports.{abandoned_at, entries_of, Shows};
ghost use Rattle.ports.specs.Ties.{IsTied, IsTiedTold};
ghost use Rattle.turn_lock.specs.Handles.{IsPassOf, seen_space, view_of};
ghost use Rattle.turn_lock.specs.PassPorts.{PortWent};
ghost use Rattle.turn_lock.specs.PortLaws.{went_self, went_on};
ghost use Rattle.turn_lock.specs.Rule.{EndedBy, TurnedBy, TurnedWithEntry};

use crate::handles::{Pass, TurnLock};
use history::{Ask, Refused, Turn};
use object_ids::ObjId;
use ports::{AskedLog, Port, PortEntries, ToldLog};
use space::{Asked, AskedEnd};
use std::alloc::Global;
use std::snapshot::Snapshot;
use std::sync::Wait;

/// A port over a pass. The list has a parameter for its type, so that a contract sees what the port left behind `pass`.
pub struct PassPort<'a, R: Wait, L> {
    rt: &'a R,
    lock: &'a TurnLock,
    pass: &'a mut Pass,
    asked: L,
}

/// A port whose turns wait for their ticket: those of one connection, whose number is its pass's.
pub type SeatPort<'a, R> = PassPort<'a, R, AskedLog>;

impl<'a, R: Wait> PassPort<'a, R, AskedLog> {
    /// The port of a pass of this lock. Its entries begin with the next turn.
    pub fn new(rt: &'a R, alloc: Global, lock: &'a TurnLock, pass: &'a mut Pass) -> SeatPort<'a, R>
        requires own { IsPassOf lock.now pass.old }
        ensures same_reference { result.pass.ghost_name ≡ pass.entry.ghost_name }
        ensures values { (result.pass.now ≡ pass.old) × (result.lock.now ≡ lock.now)
            × (result.asked.items ≡ []) }
        ensures ready { IsTied (view_of result.pass.now).number
            (seen_space (view_of result.pass.now)) result.asked.items result.asked.capacity }
    {
        PassPort {
            rt,
            lock,
            pass,
            asked: AskedLog::new(alloc),
        }
    }

    /// The port's entries.
    pub fn into_asked(self) -> PortEntries
        ensures items { result ≡ self.entry.asked.items }

        // The pass that the port was made with, the third of its fields, is as the port left it.
        ensures left { self.exit.1.1.0.now ≡ self.entry.pass.now }
    {
        let PassPort {
            rt: _,
            lock: _,
            pass: _,
            asked,
        } = self;
        PortEntries::of(asked)
    }
}

impl<'a, R: Wait> Port for PassPort<'a, R, AskedLog> {
    ghost shown = { λ p. record { asked = p.asked.items; room = 2 ^ 64 - 1 } };

    ghost ready = { λ p. IsPassOf p.lock.now p.pass.now
        × IsTied (view_of p.pass.now).number (seen_space (view_of p.pass.now)) p.asked.items
        p.asked.capacity };

    ghost leads = { λ p q. (q.pass.ghost_name ≡ p.pass.ghost_name) × (q.lock.now ≡ p.lock.now)
        × PortWent p.pass.now p.asked.items q.pass.now q.asked.items };

    /// Makes the turn at its place in the one history, which the pass has then seen. Where there is no memory for its entry, it may make none.
    fn turn(&mut self, moment: u64, ask: Ask) -> Result<Turn, Refused>
        requires ready { IsPassOf self.old.lock.now self.old.pass.now
            × IsTied (view_of self.old.pass.now).number (seen_space (view_of self.old.pass.now))
            self.old.asked.items self.old.asked.capacity }
        requires moment { moment < END_OF_TIME }
        ensures asked { self.new.asked.items
            ≡ self.old.asked.items ++ entries_of moment ask result }
        ensures room { 2 ^ 64 - 1 ≤ 2 ^ 64 }
        ensures answer { IsAnswerTo (Shows self.old.asked.items) ask result }
        ensures ready { IsPassOf self.new.lock.now self.new.pass.now
            × IsTied (view_of self.new.pass.now).number (seen_space (view_of self.new.pass.now))
            self.new.asked.items self.new.asked.capacity }
        ensures leads { (self.new.pass.ghost_name ≡ self.old.pass.ghost_name)
            × (self.new.lock.now ≡ self.old.lock.now)
            × PortWent self.old.pass.now self.old.asked.items self.new.pass.now
            self.new.asked.items }
        ensures turned { TurnedWithEntry (view_of self.old.pass.now) self.old.pass.now.number moment
            ask result (view_of self.new.pass.now) }
    {
        if self.asked.reserve(self.asked.len() + 2).is_err() {
            return Err(Refused::OutOfMemory);
        }
        match self.pass.turn_noted(self.rt, self.lock, moment, ask) {
            Ok((answer, entry)) => {
                self.asked.push_reserved(entry);
                answer
            }
            Err(_refused) => Err(Refused::OutOfMemory),
        }
    }

    /// Ends the call at a place in the one history, which the pass has then seen.
    fn abandon(&mut self, moment: u64, object: ObjId)
        requires ready { IsPassOf self.old.lock.now self.old.pass.now
            × IsTied (view_of self.old.pass.now).number (seen_space (view_of self.old.pass.now))
            self.old.asked.items self.old.asked.capacity }
        requires moment { moment < END_OF_TIME }
        requires runs { Shows self.old.asked.items object }
        ensures asked { (place : ℕ)
            × (self.new.asked.items
            ≡ self.old.asked.items ++ abandoned_at moment object place ∷ []) }
        ensures room { 2 ^ 64 - 1 ≤ 2 ^ 64 }
        ensures ready { IsPassOf self.new.lock.now self.new.pass.now
            × IsTied (view_of self.new.pass.now).number (seen_space (view_of self.new.pass.now))
            self.new.asked.items self.new.asked.capacity }
        ensures leads { (self.new.pass.ghost_name ≡ self.old.pass.ghost_name)
            × (self.new.lock.now ≡ self.old.lock.now)
            × PortWent self.old.pass.now self.old.asked.items self.new.pass.now
            self.new.asked.items }
        ensures ended { (place : ℕ)
            × (self.new.asked.items ≡ self.old.asked.items ++ abandoned_at moment object place ∷ [])
            × EndedBy (view_of self.old.pass.now) self.old.pass.now.number moment object place
            (view_of self.new.pass.now) }
    {
        let place = self.pass.abandon(self.rt, self.lock, moment, object);
        self.asked.push_reserved(Asked {
            moment,
            ask: Ask::Abandon { object },
            end: AskedEnd::Abandoned(place),
        });
    }

    fn room(&self) -> u64 {
        u64::MAX
    }

    ghost stays = { λ p. (refl, refl, went_self p.pass.now p.asked.items) };

    ghost goes_on = { λ p q r a b. (
      b.0 ∙ a.0,
      b.1 ∙ a.1,
      went_on p.pass.now q.pass.now r.pass.now p.asked.items q.asked.items r.asked.items a.2
          b.2,
    ) };
}

/// A port whose turns wait for their ticket, and which keeps nothing of them: its entries exist in proofs alone. It takes no memory of its
/// own, so each refusal is the space's, or that of a lock with no room for the event.
pub type ToldSeatPort<'a, R> = PassPort<'a, R, ToldLog>;

impl<'a, R: Wait> PassPort<'a, R, ToldLog> {
    /// The port of a pass of this lock. Its entries begin with the next turn.
    pub fn new_told(rt: &'a R, lock: &'a TurnLock, pass: &'a mut Pass) -> ToldSeatPort<'a, R>
        requires own { IsPassOf lock.now pass.old }
        ensures same_reference { result.pass.ghost_name ≡ pass.entry.ghost_name }
        ensures values { (result.pass.now ≡ pass.old) × (result.lock.now ≡ lock.now)
            × (result.asked ≡ []) }
        ensures ready { IsTiedTold (view_of result.pass.now).number
            (seen_space (view_of result.pass.now)) result.asked }
    {
        PassPort {
            rt,
            lock,
            pass,
            asked: ToldLog::new(),
        }
    }

    /// The port's entries.
    pub fn into_told(self) -> ToldLog
        ensures items { result ≡ self.entry.asked }

        // The pass that the port was made with, the third of its fields, is as the port left it.
        ensures left { self.exit.1.1.0.now ≡ self.entry.pass.now }
    {
        let PassPort {
            rt: _,
            lock: _,
            pass: _,
            asked,
        } = self;
        asked
    }
}

impl<'a, R: Wait> Port for PassPort<'a, R, ToldLog> {
    ghost shown = { λ p. record { asked = p.asked; room = 2 ^ 64 - 1 } };

    ghost ready = { λ p. IsPassOf p.lock.now p.pass.now
        × IsTiedTold (view_of p.pass.now).number (seen_space (view_of p.pass.now)) p.asked };

    ghost leads = { λ p q. (q.pass.ghost_name ≡ p.pass.ghost_name) × (q.lock.now ≡ p.lock.now)
        × PortWent p.pass.now p.asked q.pass.now q.asked };

    /// Makes the turn at its place in the one history, which the pass has then seen.
    fn turn(&mut self, moment: u64, ask: Ask) -> Result<Turn, Refused>
        requires ready { IsPassOf self.old.lock.now self.old.pass.now
            × IsTiedTold (view_of self.old.pass.now).number (seen_space (view_of self.old.pass.now))
            self.old.asked }
        requires moment { moment < END_OF_TIME }
        ensures asked { self.new.asked ≡ self.old.asked ++ entries_of moment ask result }
        ensures room { 2 ^ 64 - 1 ≤ 2 ^ 64 }
        ensures answer { IsAnswerTo (Shows self.old.asked) ask result }
        ensures ready { IsPassOf self.new.lock.now self.new.pass.now
            × IsTiedTold (view_of self.new.pass.now).number (seen_space (view_of self.new.pass.now))
            self.new.asked }
        ensures leads { (self.new.pass.ghost_name ≡ self.old.pass.ghost_name)
            × (self.new.lock.now ≡ self.old.lock.now)
            × PortWent self.old.pass.now self.old.asked self.new.pass.now self.new.asked }
        ensures turned { TurnedBy (view_of self.old.pass.now) self.old.pass.now.number moment ask
            result (view_of self.new.pass.now) }
    {
        let told = Snapshot::of(&ask);
        let answer = self.pass.turn(self.rt, self.lock, moment, ask);
        self.asked.push_turn(moment, told, &answer);
        answer
    }

    /// Ends the call at a place in the one history, which the pass has then seen.
    fn abandon(&mut self, moment: u64, object: ObjId)
        requires ready { IsPassOf self.old.lock.now self.old.pass.now
            × IsTiedTold (view_of self.old.pass.now).number (seen_space (view_of self.old.pass.now))
            self.old.asked }
        requires moment { moment < END_OF_TIME }
        requires runs { Shows self.old.asked object }
        ensures asked { (place : ℕ)
            × (self.new.asked ≡ self.old.asked ++ abandoned_at moment object place ∷ []) }
        ensures room { 2 ^ 64 - 1 ≤ 2 ^ 64 }
        ensures ready { IsPassOf self.new.lock.now self.new.pass.now
            × IsTiedTold (view_of self.new.pass.now).number (seen_space (view_of self.new.pass.now))
            self.new.asked }
        ensures leads { (self.new.pass.ghost_name ≡ self.old.pass.ghost_name)
            × (self.new.lock.now ≡ self.old.lock.now)
            × PortWent self.old.pass.now self.old.asked self.new.pass.now self.new.asked }
        ensures ended { (place : ℕ)
            × (self.new.asked ≡ self.old.asked ++ abandoned_at moment object place ∷ [])
            × EndedBy (view_of self.old.pass.now) self.old.pass.now.number moment object place
            (view_of self.new.pass.now) }
    {
        let place = self.pass.abandon(self.rt, self.lock, moment, object);
        self.asked.push_abandoned(moment, object, place);
    }

    fn room(&self) -> u64 {
        u64::MAX
    }

    ghost stays = { λ p. (refl, refl, went_self p.pass.now p.asked) };

    ghost goes_on = { λ p q r a b. (
      b.0 ∙ a.0,
      b.1 ∙ a.1,
      went_on p.pass.now q.pass.now r.pass.now p.asked q.asked r.asked a.2 b.2,
    ) };
}

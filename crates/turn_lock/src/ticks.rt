//! Whether a Tick of the root would do anything.
ghost use Rattle.std.specs.Prelude.{◌≡◌, ◌<◌, [], false, true};
ghost use Rattle.turn_lock.specs.declared.view.SeatState.TheVariants.{Idle};
ghost use Rattle.turn_lock.specs.Handles.{IsPassOf, IsRootOf, opening_of, view_of};
ghost use Rattle.turn_lock.specs.NoTick.{NeedsNoTick, NeedsTick};
ghost use Rattle.turn_lock.specs.PassPorts.{PassWent};
ghost use Rattle.turn_lock.specs.Rule.{InOrder, SeesMore};

use crate::handles::{Pass, Root, TurnLock};
use crate::steps::{enter, leave, pass_over};
use crate::table::{LockSeat, SharedTable};
use std::sync::Wait;

impl Root {
    /// Returns whether a Tick at this moment would end a lease or a wait, or report objects as gone. It makes no turn. It waits for its ticket.
    pub fn wants_tick<R: Wait>(&mut self, rt: &R, lock: &TurnLock, moment: u64) -> bool
        requires own { IsRootOf lock.now self.old }
        ensures root { IsRootOf lock.now self.new }
        ensures counts { (self.new.made ≡ self.old.made) × (self.new.out ≡ self.old.out) }
        ensures kept { self.new.kept ≡ self.old.kept }

        // The root makes no turn, but sees a history that begins with what it had seen.
        ensures went { PassWent self.old.pass self.new.pass [] }
        ensures sees { SeesMore (view_of self.old.pass) (view_of self.new.pass) }
        ensures ordered { InOrder (opening_of lock.now) (view_of self.new.pass) }

        // By that history a lease or a wait has ended, or objects are still to be reported as gone. Otherwise a Tick
        // would change nothing and report none.
        ensures due { result ≡ true → NeedsTick (view_of self.new.pass) moment }
        ensures idle { result ≡ false → NeedsNoTick (view_of self.new.pass) moment }
    {
        self.pass.wants_tick(rt, lock, moment)
    }
}

impl Pass {
    /// Returns whether a Tick at this moment would end a lease or a wait, or report objects as gone. It makes no turn. It waits for its ticket.
    fn wants_tick<R: Wait>(&mut self, rt: &R, lock: &TurnLock, moment: u64) -> bool
        requires own { IsPassOf lock.now self.old }
        ensures pass { IsPassOf lock.now self.new × (self.new.number ≡ self.old.number) }
        ensures went { PassWent self.old self.new [] }
        ensures sees { SeesMore (view_of self.old) (view_of self.new) }
        ensures due { result ≡ true → NeedsTick (view_of self.new) moment }
        ensures idle { result ≡ false → NeedsNoTick (view_of self.new) moment }
    {
        wants_tick(rt, &lock.board.shared, &mut self.seat, moment)
    }
}

/// Returns whether a Tick at this moment would end a lease or a wait, or report objects as gone. It makes no turn.
fn wants_tick<R: Wait>(rt: &R, shared: &SharedTable, seat: &mut LockSeat, moment: u64) -> bool
    requires table { (seat.old.table_id ≡ shared.now.table_id) × (shared.now.table_id.words ≡ 3)
        × (shared.now.table_id.slots ≡ 1) }
    requires idle { (seat.old.me.0.state ≡ Idle) × (seat.old.me.1 ≡ [])
        × (0 < seat.old.me.0.parts) }
    ensures seat { (seat.new.table_id ≡ seat.old.table_id) × (seat.new.id ≡ seat.old.id)
        × (seat.new.me.1 ≡ []) }
    ensures sees { SeesMore seat.old.me.0 seat.new.me.0 }
    ensures due { result ≡ true → NeedsTick seat.new.me.0 moment }
    ensures idle { result ≡ false → NeedsNoTick seat.new.me.0 moment }
{
    let desk = enter(rt, shared, seat);
    let ended = desk.kept.wants_tick(moment);
    pass_over(shared, seat, &desk);
    leave(shared, seat, desk);
    ended
}

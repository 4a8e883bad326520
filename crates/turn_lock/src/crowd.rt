//! The waiting of links while too many events are kept that the root did not hand out.
ghost use Rattle.std.specs.Prelude.{◌≡◌, ◌<◌};

use crate::handles::TurnLock;
use crate::table::LENGTH;
use std::sync::Wait;
use std::sync::atomic::Ordering;
use std::time::Duration;

/// The number of kept events from which the turns of links wait, where the lock records. Links that look at
/// once may all go on, so a few more events can be kept: one for each link.
const MOST_KEPT: u64 = 16_384;

/// The most times that a turn sleeps until events are handed out. With `NAP_MS` each that is one second in all, so a turn goes on also where
/// nobody takes the events.
const NAPS: u32 = 10;

/// For how many milliseconds a turn sleeps at a time, unless events are handed out before.
const NAP_MS: u64 = 100;

impl TurnLock {
    /// Returns whether 8,192 events or more are kept that the root did not hand out: half of those from which links wait. Whoever takes the
    /// events can then take them again soon. It is false where the lock doesn't record. The number may be off by those of turns that are made
    /// meanwhile.
    pub fn is_crowded(&self) -> bool {
        self.records && self.kept_behind(self.handed.load(Ordering::SeqCst)) >= MOST_KEPT / 2
    }

    /// Returns the number of events behind those that were handed out, up to this place. The place is read before the length, so it is the less.
    fn kept_behind(&self, handed: u64) -> u64 {
        self.board.shared.peek(LENGTH).saturating_sub(handed)
    }

    /// Waits until there is room among the kept events, for a second at most, where the lock records. The root, whose pass has number 0, never waits.
    pub(crate) fn wait_for_room<R: Wait>(&self, rt: &R, number: u32) {
        if self.records && number != 0 {
            self.sleep_while_full(rt);
        }
    }

    fn sleep_while_full<R: Wait>(&self, rt: &R) {
        for _ in 0..NAPS {
            let handed = self.handed.load(Ordering::SeqCst);
            if self.kept_behind(handed) < MOST_KEPT {
                return;
            }
            self.handed.park_timeout(
                rt,
                (handed % 4_294_967_296) as u32,
                Duration::from_millis(NAP_MS),
            );
        }
    }

    /// Notes that the events up to this place were handed out, and lets links go on.
    pub(crate) fn note_handed(&self, place: u64) {
        self.handed.store(place, Ordering::SeqCst);
        self.handed.wake_all();
    }

    /// Lets links go on where the events could not be handed out: as many further events are made before links wait again. So a lock that has no
    /// memory to keep events any more does not make each turn wait.
    pub(crate) fn note_refused(&self) {
        self.note_handed(self.board.shared.peek(LENGTH));
    }
}

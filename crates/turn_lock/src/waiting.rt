//! The waiting of a thread. It looks a few times, and then sleeps for a moment between two looks, so that others have
//! its core.
ghost use Rattle.std.specs.Prelude.{◌≡◌, ◌<◌};

use crate::table::{SERVING, SharedTable, TICKET};
use std::hint;
use std::sync::Wait;
use std::time::Duration;

/// The number of looks of a thread before it sleeps. They take the time of a few turns. A turn is shorter than a
/// sleep, also where the kernel takes the core of the thread that makes it for a moment.
const LOOKS: u32 = 500;

/// The number of looks of a thread before it draws a ticket though others have one.
const PATIENCE: u32 = 4_000;

/// The most microseconds that a thread sleeps before it looks again.
const NAP: u64 = 100;

/// Waits after so many looks at a word, which was found to be this.
pub(crate) fn pause<R: Wait>(rt: &R, shared: &SharedTable, word: usize, found: u64, looks: u32)
    requires { word < shared.now.table_id.words }
{
    if looks < LOOKS {
        hint::spin_loop();
    } else {
        shared.park_timeout(
            rt,
            word,
            (found % 4_294_967_296) as u32,
            Duration::from_micros(NAP),
        );
    }
}

/// Returns whether a count has come to another, where less than 2^63 lies between them. The counts' words wrap at
/// 2^64.
fn has_come_to(word: u64, other: u64) -> bool {
    word.wrapping_sub(other) < 1 << 63
}

/// Waits until no other thread has a ticket, or for some time. Then few sleep with a ticket in hand, and no turn waits for a sleeper.
pub(crate) fn approach<R: Wait>(rt: &R, shared: &SharedTable)
    requires { shared.now.table_id.words ≡ 3 }
{
    for looks in 0..PATIENCE {
        let next = shared.peek(TICKET);
        if has_come_to(shared.peek(SERVING), next) {
            return;
        }
        pause(rt, shared, TICKET, next, looks);
    }
}

/// Wakes those that sleep with a ticket, where one was drawn that is to be served now.
pub(crate) fn wake(shared: &SharedTable, served: u64)
    requires { shared.now.table_id.words ≡ 3 }
{
    if shared.peek(TICKET) != served {
        shared.wake_all(SERVING);
    }
}

//! An end of an input that sets a flag once it was seen.
ghost use Rattle.std.specs.Prelude.{◌≡◌, true};

use crate::end::InputEnd;
use std::sync::Arc;
use std::sync::atomic::{AtomicBool, Ordering};

/// The end of another input, which also sets a flag at each look that sees the end.
///
/// Others may look at the flag from other threads, as the links of a `TcpListen` do.
#[derive(Drop)]
pub struct FlaggedEnd<E> {
    input: E,
    flag: Arc<AtomicBool>,
}

impl<E> FlaggedEnd<E> {
    /// Makes the end that sets this flag at the end of this input. It takes no memory.
    pub fn new(input: E, flag: Arc<AtomicBool>) -> FlaggedEnd<E>
        ensures { result.input ≡ input }
    {
        FlaggedEnd { input, flag }
    }
}

impl<E: InputEnd> InputEnd for FlaggedEnd<E> {
    ghost seen = { λ f. E.seen f.input };

    ghost looked = { λ old new answer. E.looked old.input new.input answer };

    /// Looks for the end of the input inside, and sets the flag if the input is at its end.
    fn look(&mut self) -> bool {
        let is_seen = self.input.look();
        if is_seen {
            self.flag.store(true, Ordering::SeqCst);
        }
        is_seen
    }

    fn was_seen(&self) -> bool {
        self.input.was_seen()
    }
}

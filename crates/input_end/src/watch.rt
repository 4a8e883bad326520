//! Watches, which tell if a read of an input would wait.
ghost use Rattle.std.specs.Prelude.{◌≡◌, Bool, false};
ghost use Rattle.input_end.specs.declared.watch.Readiness.{Readiness as Readinesses};
ghost use Rattle.input_end.specs.declared.watch.Readiness.TheVariants.{WouldWait};

/// The answer to the question if a read of an input would wait.
#[derive(Clone, Copy)]
pub enum Readiness {
    /// The read would wait, or nothing is known of it.
    WouldWait,
    /// The read returns at once, with bytes, the end or a fault.
    WouldAnswer,
    /// The other end is gone: there is nothing to read, and nothing will come.
    HungUp,
}

/// Tells if a read of an input would wait.
pub trait Watch {
    // What it answered last, and `WouldWait` before.
    ghost answered: { Self → Readinesses };

    // Whether it can watch its input. Where it can't, it says each time that a read would wait.
    ghost watches: { Self → Bool };

    /// Returns what is known of the next read now. This call does not wait.
    fn readiness(&mut self) -> Readiness
        ensures answered { result ≡ answered self.new }
        ensures watches { watches self.new ≡ watches self.old }
        ensures unwatched { watches self.old ≡ false → result ≡ WouldWait };
}

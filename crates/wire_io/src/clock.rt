//! Where moments come from.
ghost use Rattle.std.specs.Prelude.{◌≤◌, ℕ, List, [], ◌∷◌, Option};
ghost use Rattle.wire_io.specs.Wire.{Gave};
ghost use Rattle.wire_io.specs.declared.limits.TheConstants.{LAST_MOMENT};

/// A clock that is read.
pub trait Clock {
    // The moments that it gave so far, in their order, where the clock tells them: `Some` of them, or `None`. A clock
    // may cease to tell them.
    ghost given: { Self → Option (List ℕ) };

    /// The present moment, in milliseconds. A moment may be earlier than one before it.
    fn now(&mut self) -> u64
        ensures bound { result ≤ LAST_MOMENT }
        ensures given { Gave (given self.old) (given self.new) (result ∷ []) };
}

//! The end of an input.
ghost use Rattle.std.specs.Prelude.{◌≡◌, ◌≤◌, ◌↔◌, Bool, true, false, IsSomeAnd, IsTrue, Option};
ghost use Rattle.input_end.specs.Ends.{LookedInMemory};

use std::marker::Model;

/// An input whose end can be seen without a wait.
pub trait InputEnd {
    // Whether the end was seen.
    ghost seen: { Self → Bool };

    // One look leads from the first input to the second, with this answer. Only `look` ensures it. So a function over any input that
    // ensures it has looked exactly once.
    ghost looked: { Self → Self → Bool → Type 0 };

    /// Looks for the end, and returns true if the input is at its end. This call does not wait. After a look that saw the end, each look returns true.
    fn look(&mut self) -> bool
        ensures looked { looked self.old self.new result }
        ensures seen { result ≡ seen self.new }
        ensures stays { seen self.old ≡ true → result ≡ true };

    /// Returns true if a look has seen the end.
    fn was_seen(&self) -> bool
        ensures seen { result ≡ seen self.now };
}

/// An input in memory that is at its end from a chosen look on.
///
/// Looks are counted from 0. The count stops at `u64::MAX`. Where `first` is `None`, the input never ends.
#[derive(Drop)]
pub struct MemInputEnd {
    first: Option<u64>,
    looks: u64,
    is_seen: bool,
}

impl Model for MemInputEnd {
    ghost use Rattle.std.specs.Prelude.{◌≡◌, ◌≤◌, true, IsSomeAnd};
    ghost use Rattle.input_end.specs.Ends.{EndState};

    ghost Value = { EndState };

    ghost view = { λ e. record { first = e.first; looks = e.looks; seen = e.is_seen } };

    ghost invariant = { λ e. e.is_seen ≡ true → IsSomeAnd e.first (λ first. first ≤ e.looks) };
}

impl MemInputEnd {
    /// Makes an input that is at its end at the look with the index `first` and at each later one. No look was made yet.
    pub fn new(first: Option<u64>) -> MemInputEnd
        ensures first { result.first ≡ first }
        ensures looks { result.looks ≡ 0 }
        ensures seen { result.seen ≡ false }
    {
        MemInputEnd {
            first,
            looks: 0,
            is_seen: false,
        }
    }

    /// Returns the number of looks so far.
    pub fn looks(&self) -> u64
        ensures { result ≡ self.now.looks }
    {
        self.looks
    }
}

/// Returns true if the look with this index sees the end, where `first` is the first look that does.
fn is_from(first: Option<u64>, index: u64) -> bool
    ensures { IsTrue result ↔ IsSomeAnd first (λ start. start ≤ index) }
{
    match first {
        Some(start) => start <= index,
        None => false,
    }
}

impl InputEnd for MemInputEnd {
    ghost seen = { λ e. e.seen };

    ghost use Rattle.input_end.specs.Ends.{LookedInMemory};

    ghost looked = { LookedInMemory };

    fn look(&mut self) -> bool
        ensures looked { LookedInMemory self.old self.new result }
        ensures seen { result ≡ self.new.seen }
        ensures stays { self.old.seen ≡ true → result ≡ true }
    {
        let index = self.looks;
        self.looks = index.saturating_add(1);
        self.is_seen = is_from(self.first, index);
        self.is_seen
    }

    fn was_seen(&self) -> bool
        ensures seen { result ≡ self.now.seen }
    {
        self.is_seen
    }
}

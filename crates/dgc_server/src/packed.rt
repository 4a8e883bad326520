//! The numbers that count for one object of a client, in few bytes.
ghost use Rattle.std.specs.Prelude.{◌≡◌, Option, is_some};
ghost use Rattle.dgc_server.specs.Numbers.{number_if, strong_part, is_dirty_highest, is_remembered};

use crate::numbers::Numbers;
use std::marker::Model;

/// The numbers of an object as a client's list or map keeps them: in 32 bytes, where three options take 48. Contracts see them as `Numbers`.
#[derive(Drop)]
pub struct Packed {
    dirty: i64,
    clean: i64,
    strong: i64,
    has_dirty: bool,
    has_clean: bool,
    has_strong: bool,
}

impl Model for Packed {
    ghost use Rattle.dgc_server.specs.declared.numbers.Numbers.{Numbers};
    ghost use Rattle.dgc_server.specs.Numbers.{number_if};

    ghost Value = { Numbers };

    ghost view = { λ p. record {
      dirty = number_if p.has_dirty p.dirty;
      clean = number_if p.has_clean p.clean;
      strong = number_if p.has_strong p.strong;
    } };
}

impl Packed {
    /// These numbers.
    pub fn of(numbers: &Numbers) -> Packed
        ensures { result ≡ numbers.now }
    {
        let (has_dirty, dirty) = split(numbers.dirty);
        let (has_clean, clean) = split(numbers.clean);
        let (has_strong, strong) = split(numbers.strong);
        Packed {
            dirty,
            clean,
            strong,
            has_dirty,
            has_clean,
            has_strong,
        }
    }

    /// The numbers.
    pub fn numbers(&self) -> Numbers
        ensures { result ≡ self.now }
    {
        Numbers {
            dirty: number_if(self.has_dirty, self.dirty),
            clean: number_if(self.has_clean, self.clean),
            strong: number_if(self.has_strong, self.strong),
        }
    }

    /// The same numbers once more.
    pub fn copy(&self) -> Packed
        ensures { result ≡ self.now }
    {
        Packed {
            dirty: self.dirty,
            clean: self.clean,
            strong: self.strong,
            has_dirty: self.has_dirty,
            has_clean: self.has_clean,
            has_strong: self.has_strong,
        }
    }

    /// Forgets the numbers of the tenure, and says whether another is left, that of a strong clean.
    pub fn end_tenure(&mut self) -> bool
        ensures numbers { self.new ≡ strong_part self.old }
        ensures strong { result ≡ is_some self.old.strong }
    {
        let is_left = self.numbers().strong.is_some();
        self.has_dirty = false;
        self.has_clean = false;
        is_left
    }

    /// True where the highest call is a dirty: of equal numbers a clean is above a dirty.
    pub fn is_dirty_highest(&self) -> bool
        ensures { result ≡ is_dirty_highest self.now }
    {
        self.numbers().is_dirty_highest()
    }

    /// True where a strong clean's number is kept, which is for good.
    pub fn is_for_good(&self) -> bool
        ensures { result ≡ is_some self.now.strong }
    {
        self.numbers().strong.is_some()
    }

    /// True where the pair of client and object is remembered, where the client has time left or has not.
    pub fn is_remembered(&self, has_time_left: bool) -> bool
        ensures { result ≡ is_remembered has_time_left self.now }
    {
        self.numbers().is_remembered(has_time_left)
    }
}

/// Returns true and the number where there is one, and false and 0 where there is none.
fn split(number: Option<i64>) -> (bool, i64)
    ensures { number_if result.0 result.1 ≡ number }
{
    match number {
        Some(number) => (true, number),
        None => (false, 0),
    }
}

/// A number, if it is there.
fn number_if(is_there: bool, number: i64) -> Option<i64>
    ensures { result ≡ number_if is_there number }
{
    if is_there { Some(number) } else { None }
}

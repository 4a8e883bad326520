//! Decimal numbers on the command line, without needless zeros or signs.
ghost use Rattle.std.specs.Prelude.{◌≡◌, ◌↔◌, ◌^◌, decimal, IsTrue, IfSome, IfNone};
ghost use Rattle.history.specs.declared.limits.TheConstants.{MAX_DURATION_MS};
ghost use Rattle.journal.specs.Reading.{Finds};
ghost use Rattle.journal.specs.Grammar.{SpellsBelow};
ghost use Rattle.rmi_words.specs.CallWords.{SpellsUnit};
ghost use Rattle.rmi_words.specs.Command.{AreInRange, SpellNoDrill};
ghost use Rattle.rmi_words.specs.Options.{SpellsUpTo};

use history::limits::MAX_DURATION_MS;
use journal::begins_plainly;

/// The most rounds of a drill.
pub const MAX_ROUNDS: u64 = 1_000_000;

/// The number below 2^64 that a word spells.
fn read_number(word: &str) -> Option<u64>
    ensures { Finds (SpellsBelow (2 ^ 64)) result word.now }
{
    if !begins_plainly(word.as_bytes()) {
        return None;
    }
    match word.parse::<u64>() {
        Ok(n) => Some(n),
        Err(_) => None,
    }
}

/// Returns whether these are the numbers of a drill.
fn are_in_range(seed: u64, rounds: u64) -> bool
    ensures { IsTrue result ↔ AreInRange seed rounds }
{
    seed < 1 << 63 && 1 <= rounds && rounds <= MAX_ROUNDS
}

/// Returns the seed and the number of rounds of a drill that two words spell, or None where they spell none.
pub(crate) fn read_drill(seed: &str, rounds: &str) -> Option<(u64, u64)>
    ensures range { IfSome result (λ p. AreInRange p.0 p.1) }
    ensures seed { IfSome result (λ p. seed.now ≡ decimal p.0) }
    ensures rounds { IfSome result (λ p. rounds.now ≡ decimal p.1) }
    ensures none { IfNone result (SpellNoDrill seed.now rounds.now) }
{
    let first = read_number(seed)?;
    let second = read_number(rounds)?;
    if are_in_range(first, second) {
        Some((first, second))
    } else {
        None
    }
}

/// The number, 1 to this one, that a word spells.
fn read_up_to(word: &str, most: u64) -> Option<u64>
    ensures { Finds (SpellsUpTo most) result word.now }
{
    let number = read_number(word)?;
    if 1 <= number && number <= most {
        Some(number)
    } else {
        None
    }
}

/// The number of milliseconds, 1 to 2^40, that a word spells.
pub(crate) fn read_duration(word: &str) -> Option<u64>
    ensures { Finds (SpellsUpTo MAX_DURATION_MS) result word.now }
{
    read_up_to(word, MAX_DURATION_MS)
}

/// The number, 1 to 65535, that a word spells.
pub(crate) fn read_small(word: &str) -> Option<u16>
    ensures { Finds (SpellsUpTo 65535) result word.now }
{
    match read_up_to(word, 65_535) {
        Some(number) => Some(number as u16),
        None => None,
    }
}

/// Returns the number of one 16-bit unit, 0 to 65535, that a word spells.
pub(crate) fn read_unit(word: &str) -> Option<u16>
    ensures { Finds SpellsUnit result word.now }
{
    let number = read_number(word)?;
    if number < 1 << 16 {
        Some(number as u16)
    } else {
        None
    }
}

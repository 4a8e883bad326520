//! Numbers with a sign on the command line: `~` stands before the amount of a negative one.
ghost use Rattle.std.specs.Prelude.{◌≡◌, ◌≢◌, ◌↔◌, ◌^◌, IsTrue, slice_index};
ghost use Rattle.std.specs.Int.{w16, w32, w64};
ghost use Rattle.journal.specs.Reading.{Finds};
ghost use Rattle.rmi_words.specs.CallWords.{SpellsByte, SpellsNumber};

use journal::read_below;

/// Returns the number of 8 bits that a word spells, as its bits.
pub(crate) fn read_byte(word: &str) -> Option<u8>
    ensures { Finds SpellsByte result word.now }
{
    match i8::try_from(read_long(word)?) {
        Ok(n) => Some(n.cast_unsigned()),
        Err(_) => None,
    }
}

/// Returns the number of 16 bits that a word spells.
pub(crate) fn read_short(word: &str) -> Option<i16>
    ensures { Finds (SpellsNumber w16) result word.now }
{
    match i16::try_from(read_long(word)?) {
        Ok(n) => Some(n),
        Err(_) => None,
    }
}

/// Returns the number of 32 bits that a word spells.
pub(crate) fn read_int(word: &str) -> Option<i32>
    ensures { Finds (SpellsNumber w32) result word.now }
{
    match i32::try_from(read_long(word)?) {
        Ok(n) => Some(n),
        Err(_) => None,
    }
}

/// Returns the number of 64 bits that a word spells.
pub(crate) fn read_long(word: &str) -> Option<i64>
    ensures { Finds (SpellsNumber w64) result word.now }
{
    read_signed(word.as_bytes())
}

/// Returns the number of 64 bits that a word's bytes spell.
fn read_signed(word: &[u8]) -> Option<i64>
    ensures { Finds (SpellsNumber w64) result word.now }
{
    if is_negative(word) {
        read_negative(word)
    } else {
        read_positive(word)
    }
}

/// Returns true if a tilde stands first.
fn is_negative(word: &[u8]) -> bool
    ensures { IsTrue result ↔ (slice_index word.now 0 ≡ 126) }
{
    !word.is_empty() && word[0] == b'~'
}

/// Returns the number below 0 that a word with a tilde spells.
fn read_negative(word: &[u8]) -> Option<i64>
    requires { slice_index word.now 0 ≡ 126 }
    ensures { Finds (SpellsNumber w64) result word.now }
{
    let (_tilde, digits) = word.split_first()?;
    let amount = read_below((1 << 63) + 1, digits)?;
    if amount == 0 {
        return None;
    }
    let less = amount - 1;
    Some(-1 - less as i64)
}

/// Returns the number from 0 on that a word without a tilde spells.
fn read_positive(word: &[u8]) -> Option<i64>
    requires { slice_index word.now 0 ≢ 126 }
    ensures { Finds (SpellsNumber w64) result word.now }
{
    let amount = read_below(1 << 63, word)?;
    Some(amount as i64)
}

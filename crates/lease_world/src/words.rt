//! The words of a script's line.
ghost use Rattle.std.specs.Prelude.{◌≡◌, ◌≤◌, ◌∷◌, ◌==◌, length, position, MatchOption};
ghost use Rattle.journal.specs.Parts.{parts, parts_left};
ghost use Rattle.lease_world.specs.Words.{words_in};

/// The words of a line that has at most four.
#[derive(Drop)]
pub(crate) enum Words<'a> {
    /// One word.
    One(&'a [u8]),
    /// Two words.
    Two(&'a [u8], &'a [u8]),
    /// Three words.
    Three(&'a [u8], &'a [u8], &'a [u8]),
    /// Four words.
    Four(&'a [u8], &'a [u8], &'a [u8], &'a [u8]),
}

/// The position of the first space.
fn find_space(text: &[u8]) -> Option<usize>
    ensures { result ≡ position (λ b. b == 32) text.now }
{
    text.iter().position(|b| *b == b' ')
}

/// The first word, and what comes after the space behind it, which is None where there is no space.
fn split_word(text: &[u8]) -> (&[u8], Option<&[u8]>)
    ensures { parts 32 text.now ≡ result.0.now ∷ parts_left 32 result.1 }
{
    match find_space(text) {
        Some(at) => (&text[..at], Some(&text[at + 1..])),
        None => (text, None),
    }
}

/// The words of a line. It is None exactly where it has more than four.
pub(crate) fn words_of(line: &[u8]) -> Option<Words<'_>>
    ensures { MatchOption result (5 ≤ length (parts 32 line.now))
        (λ words. parts 32 line.now ≡ words_in words) }
{
    let (first, rest) = split_word(line);
    let Some(rest) = rest else {
        return Some(Words::One(first));
    };
    let (second, rest) = split_word(rest);
    let Some(rest) = rest else {
        return Some(Words::Two(first, second));
    };
    let (third, rest) = split_word(rest);
    let Some(rest) = rest else {
        return Some(Words::Three(first, second, third));
    };
    let (fourth, rest) = split_word(rest);
    match rest {
        Some(_) => None,
        None => Some(Words::Four(first, second, third, fourth)),
    }
}

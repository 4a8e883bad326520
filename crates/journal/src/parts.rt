//! The parts of bytes between separators.
ghost use Rattle.std.specs.Prelude.{◌≡◌, ◌↔◌, ◌==◌, ◌∷◌, [], IsTrue, MatchOption, codes, position};
ghost use Rattle.journal.specs.Parts.{parts};

use std::marker::Model;

/// The parts of bytes between separators, from the first part that was not taken yet. There is always
/// at least one, which may be empty. Contracts see it as the list of these parts.
#[derive(Drop)]
pub struct Parts<'a> {
    rest: Option<&'a [u8]>,
    separator: u8,
}

impl<'a> Model for Parts<'a> {
    ghost use Rattle.std.specs.Prelude.{List, ℕ};
    ghost use Rattle.journal.specs.Parts.{parts_left};

    ghost Value = { List (List ℕ) };

    ghost view = { λ p. parts_left p.separator p.rest };
}

impl<'a> Parts<'a> {
    /// The parts of these bytes.
    pub fn new(bytes: &'a [u8], separator: u8) -> Parts<'a>
        ensures { result ≡ parts separator bytes.now }
    {
        Parts {
            rest: Some(bytes),
            separator,
        }
    }

    /// The next part, and those after it. It is None exactly where there is none.
    pub fn split(self) -> Option<(&'a [u8], Parts<'a>)>
        ensures { MatchOption result (self.entry ≡ []) (λ p. self.entry ≡ p.0.now ∷ p.1) }
    {
        let separator = self.separator;
        let rest = self.rest?;
        match find_byte(rest, separator) {
            Some(at) => Some((
                &rest[..at],
                Parts {
                    rest: Some(&rest[at + 1..]),
                    separator,
                },
            )),
            None => Some((
                rest,
                Parts {
                    rest: None,
                    separator,
                },
            )),
        }
    }
}

/// The position of a byte's first occurrence.
pub(crate) fn find_byte(bytes: &[u8], byte: u8) -> Option<usize>
    ensures { result ≡ position (λ b. b == byte) bytes.now }
{
    bytes.iter().position(|b| *b == byte)
}

/// Returns whether a word is the one for an empty list.
pub(crate) fn is_dash(word: &[u8]) -> bool
    ensures { IsTrue result ↔ (word.now ≡ codes "-") }
{
    match word {
        b"-" => true,
        _ => false,
    }
}

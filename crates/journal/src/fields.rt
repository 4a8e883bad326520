//! Words that spell values, and lists of them.
ghost use Rattle.std.specs.Prelude.{List, ℕ, ◌≡◌};
ghost use Rattle.object_ids.specs.declared.ids.Uid.{Uid};
ghost use Rattle.journal.specs.Reading.{Reads};
ghost use Rattle.journal.specs.Grammar.{◌▸◌, End};

use crate::parts::Parts;
use crate::unread::Unread;
use object_ids::Uid;
use std::alloc::Global;

/// A value that a word spells in the journal of a space.
pub(crate) trait Field: Sized {
    /// The word spells the value.
    ghost spells: { Uid → Self → List ℕ → Type 0 };

    /// The value that a word spells.
    fn read(alloc: Global, space: Uid, word: &[u8]) -> Result<Self, Unread>
        ensures { Reads (spells space) result word.now };
}

/// The value of the first word, and the words after it.
pub(crate) fn first<'a, A: Field + Drop>(
    alloc: Global,
    space: Uid,
    words: Parts<'a>,
) -> Result<(A, Parts<'a>), Unread>
    ensures { Reads (λ p. A.spells space p.0 ▸ (λ rest. rest ≡ p.1)) result words.entry }
{
    match words.split() {
        Some((word, rest)) => Ok((A::read(alloc, space, word)?, rest)),
        None => Err(Unread::NotSpelled),
    }
}

/// Nothing, where there are no words.
pub(crate) fn none(words: Parts) -> Result<(), Unread>
    ensures { Reads (λ _ left. End left) result words.entry }
{
    match words.split() {
        Some(_) => Err(Unread::NotSpelled),
        None => Ok(()),
    }
}

/// The value of the one word that there is.
pub(crate) fn one<A: Field + Drop>(alloc: Global, space: Uid, words: Parts) -> Result<A, Unread>
    ensures { Reads (λ a. A.spells space a ▸ End) result words.entry }
{
    let (a, rest) = first::<A>(alloc, space, words)?;
    match rest.split() {
        Some(_) => Err(Unread::NotSpelled),
        None => Ok(a),
    }
}

/// The values of two words.
pub(crate) fn two<A: Field + Drop, B: Field + Drop>(
    alloc: Global,
    space: Uid,
    words: Parts,
) -> Result<(A, B), Unread>
    ensures { Reads (λ p. A.spells space p.0 ▸ B.spells space p.1 ▸ End) result words.entry }
{
    let (a, rest) = first::<A>(alloc, space, words)?;
    let b = one::<B>(alloc, space, rest)?;
    Ok((a, b))
}

/// The values of three words.
pub(crate) fn three<A: Field + Drop, B: Field + Drop, C: Field + Drop>(
    alloc: Global,
    space: Uid,
    words: Parts,
) -> Result<(A, B, C), Unread>
    ensures { Reads (λ p. A.spells space p.0 ▸ B.spells space p.1 ▸ C.spells space p.2 ▸ End) result
        words.entry }
{
    let (a, rest) = first::<A>(alloc, space, words)?;
    let (b, c) = two::<B, C>(alloc, space, rest)?;
    Ok((a, b, c))
}

/// The values of four words.
pub(crate) fn four<A: Field + Drop, B: Field + Drop, C: Field + Drop, D: Field + Drop>(
    alloc: Global,
    space: Uid,
    words: Parts,
) -> Result<(A, B, C, D), Unread>
    ensures { Reads (λ p.
        A.spells space p.0 ▸ B.spells space p.1 ▸ C.spells space p.2 ▸ D.spells space p.3 ▸ End)
        result words.entry }
{
    let (a, rest) = first::<A>(alloc, space, words)?;
    let (b, c, d) = three::<B, C, D>(alloc, space, rest)?;
    Ok((a, b, c, d))
}

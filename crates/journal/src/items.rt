//! Lists as words.
ghost use Rattle.std.specs.Prelude.{List, ℕ};
ghost use Rattle.journal.specs.Reading.{Reads};
ghost use Rattle.journal.specs.Parts.{Lacks};
ghost use Rattle.journal.specs.Grammar.{SpellsList, SpellsKinds, SpellsObjects};

use crate::fields::Field;
use crate::parts::{Parts, is_dash};
use crate::unread::Unread;
use object_ids::{ObjId, ObjIds, Uid};
use sequence::{Kinds, Sequence};
use std::alloc::Global;

/// The items that a word spells, joined by commas.
pub(crate) fn read_list<A: Field + Drop>(
    alloc: Global,
    space: Uid,
    word: &[u8],
) -> Result<Sequence<A>, Unread>
    requires { (x : A) → (text : List ℕ) → A.spells space x text → Lacks 44 text }
    ensures { Reads (SpellsList (A.spells space)) result word.now }
{
    let mut items = Sequence::new(alloc);
    if is_dash(word) {
        return Ok(items);
    }
    let mut left = Parts::new(word, b',');
    while let Some((part, rest)) = left.split() {
        items.push(A::read(alloc, space, part)?)?;
        left = rest;
    }
    Ok(items)
}

impl Field for Kinds {
    ghost spells = { λ _ kinds word. SpellsKinds kinds word };

    fn read(alloc: Global, space: Uid, word: &[u8]) -> Result<Kinds, Unread> {
        read_list::<u32>(alloc, space, word)
    }
}

impl Field for ObjIds {
    ghost spells = { SpellsObjects };

    fn read(alloc: Global, space: Uid, word: &[u8]) -> Result<ObjIds, Unread> {
        read_list::<ObjId>(alloc, space, word)
    }
}

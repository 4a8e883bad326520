//! Identifiers of machines, objects and clients as words.
ghost use Rattle.journal.specs.Reading.{Reads};
ghost use Rattle.journal.specs.Grammar.{SpellsUid, SpellsObject, SpellsLong};

use crate::fields::{Field, three, two};
use crate::number::read_signed;
use crate::parts::{Parts, find_byte};
use crate::unread::Unread;
use object_ids::{ObjId, Uid};
use std::alloc::Global;

impl Field for Uid {
    ghost spells = { λ _ uid word. SpellsUid uid word };

    fn read(alloc: Global, space: Uid, word: &[u8]) -> Result<Uid, Unread> {
        let (unique, time, count) = three::<i32, i64, i16>(alloc, space, Parts::new(word, b'/'))?;
        Ok(Uid {
            unique,
            time,
            count,
        })
    }
}

impl Field for ObjId {
    ghost spells = { SpellsObject };

    fn read(alloc: Global, space: Uid, word: &[u8]) -> Result<ObjId, Unread> {
        match find_byte(word, b':') {
            None => match read_signed(word) {
                Some(number) => Ok(ObjId { number, space }),
                None => Err(Unread::NotSpelled),
            },
            Some(_) => read_long_object(alloc, space, word),
        }
    }
}

/// The object N:U/T/C that a word spells.
fn read_long_object(alloc: Global, space: Uid, word: &[u8]) -> Result<ObjId, Unread>
    ensures { Reads SpellsLong result word.now }
{
    let (number, space) = two::<i64, Uid>(alloc, space, Parts::new(word, b':'))?;
    Ok(ObjId { number, space })
}

//! Clients of the collector as words.
ghost use Rattle.journal.specs.Grammar.{SpellsAddress, SpellsClient};

use crate::fields::{Field, two};
use crate::hex::read_bytes;
use crate::parts::{Parts, is_dash};
use crate::unread::Unread;
use object_ids::{Uid, Vmid};
use sequence::ByteList;
use std::alloc::Global;

/// The most hexadecimal digits of an address, of which each byte has two.
const MAX_ADDRESS_DIGITS: usize = 510;

/// The address of a client's virtual machine, at most 255 bytes.
#[derive(Drop)]
pub(crate) struct Address(pub ByteList);

impl Field for Address {
    ghost spells = { λ _ addr word. SpellsAddress addr.0 word };

    fn read(alloc: Global, _space: Uid, word: &[u8]) -> Result<Address, Unread> {
        if is_dash(word) {
            return Ok(Address(ByteList::new(alloc)));
        }
        if word.is_empty() || word.len() > MAX_ADDRESS_DIGITS {
            return Err(Unread::NotSpelled);
        }
        Ok(Address(read_bytes(alloc, word)?))
    }
}

impl Field for Vmid {
    ghost spells = { λ _ client word. SpellsClient client word };

    fn read(alloc: Global, space: Uid, word: &[u8]) -> Result<Vmid, Unread> {
        let (addr, uid) = two::<Address, Uid>(alloc, space, Parts::new(word, b'@'))?;
        Vmid::new(addr.0, uid).ok_or(Unread::NotSpelled)
    }
}

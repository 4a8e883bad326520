//! The numbers of a script's steps.
ghost use Rattle.std.specs.Prelude.{◌^◌};
ghost use Rattle.journal.specs.Reading.{Finds};
ghost use Rattle.lease_world.specs.Script.{SpellsClients, SpellsCount, SpellsClient};

use crate::script::MAX_CLIENTS;
use journal::read_below;

/// The number below 2^63 that a word spells.
pub(crate) fn read_count(word: &[u8]) -> Option<u64>
    ensures { Finds SpellsCount result word.now }
{
    read_below(1 << 63, word)
}

/// The client's number that a word spells.
pub(crate) fn read_client(word: &[u8]) -> Option<u8>
    ensures { Finds SpellsClient result word.now }
{
    match read_below(1 << 8, word) {
        Some(n) => Some(n as u8),
        None => None,
    }
}

/// The number of clients that a word spells, from 1 to 200.
pub(crate) fn read_clients(word: &[u8]) -> Option<u8>
    ensures { Finds SpellsClients result word.now }
{
    let n = read_below(MAX_CLIENTS + 1, word)?;
    if n == 0 { None } else { Some(n as u8) }
}

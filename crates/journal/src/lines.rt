//! The lines of a journal.
ghost use Rattle.std.specs.Prelude.{◌≡◌, ◌≢◌, [], ◌∷◌, ◌++◌, List, ℕ, MatchOption, IfOk};
ghost use Rattle.journal.specs.Reading.{Finds, Reads};
ghost use Rattle.journal.specs.Parts.{Lacks};
ghost use Rattle.journal.specs.Grammar.{SpellsEvent, EventWords, SpellsConfig, ConfigWords};

use crate::asks::read_ask;
use crate::fields::first;
use crate::number::{Moment, read_duration, read_signed, read_signed_32};
use crate::parts::Parts;
use crate::unread::Unread;
use history::{Event, SpaceConfig};
use memchr::memchr;
use object_ids::Uid;
use std::alloc::{AllocError, Global};

/// The first line of some bytes, without its LF, and the bytes after the LF. It is None exactly where no
/// LF is among the bytes.
pub fn split_line(bytes: &[u8]) -> Option<(&[u8], &[u8])>
    ensures { MatchOption result (Lacks 10 bytes.now)
        (λ p. Lacks 10 p.0.now × (bytes.now ≡ p.0.now ++ 10 ∷ p.1.now)) }
{
    let at = memchr(b'\n', bytes)?;
    Some((&bytes[..at], &bytes[at + 1..]))
}

/// The configuration that a journal's first line spells, of a space that keeps its events. The line stands here without its LF. It is
/// None exactly where the line spells none.
pub fn read_first_line(line: &[u8]) -> Option<SpaceConfig>
    ensures { Finds SpellsConfig result line.now }
{
    config_of(Parts::new(line, b' '))
}

/// The configuration that a line's words spell.
fn config_of(words: Parts) -> Option<SpaceConfig>
    ensures { Finds ConfigWords result words.entry }
{
    let (keyword, words) = words.split()?;
    if keyword != b"space".as_slice() {
        return None;
    }
    let (lease, ack, unique, time) = four_words(words)?;
    Some(SpaceConfig {
        lease_ms: read_duration(lease)?,
        ack_ms: read_duration(ack)?,
        uid: Uid {
            unique: read_signed_32(unique)?,
            time: read_signed(time)?,
            count: 0,
        },
        stored: true,
    })
}

/// Four words, where there are no others.
fn four_words<'a>(words: Parts<'a>) -> Option<(&'a [u8], &'a [u8], &'a [u8], &'a [u8])>
    ensures { MatchOption result
        ((a b c d : List ℕ) → words.entry ≢ a ∷ b ∷ c ∷ d ∷ [])
        (λ p. words.entry ≡ p.0.now ∷ p.1.now ∷ p.2.now ∷ p.3.now ∷ []) }
{
    let (a, words) = words.split()?;
    let (b, words) = words.split()?;
    let (c, words) = words.split()?;
    let (d, words) = words.split()?;
    match words.split() {
        Some(_) => None,
        None => Some((a, b, c, d)),
    }
}

/// The event that a journal's line spells, in the journal of the space of this identifier. The line
/// stands here without its LF. It is None exactly where the line spells none.
pub fn read_event(alloc: Global, space: Uid, line: &[u8]) -> Result<Option<Event>, AllocError>
    ensures { IfOk result (λ event. Finds (SpellsEvent space) event line.now) }
{
    match event_of(alloc, space, Parts::new(line, b' ')) {
        Ok(event) => Ok(Some(event)),
        Err(Unread::NotSpelled) => Ok(None),
        Err(Unread::NoMemory) => Err(AllocError),
    }
}

/// The event that a line's words spell.
fn event_of(alloc: Global, space: Uid, words: Parts) -> Result<Event, Unread>
    ensures { Reads (EventWords space) result words.entry }
{
    let (by, words) = first::<u32>(alloc, space, words)?;
    let (moment, words) = first::<Moment>(alloc, space, words)?;
    let ask = read_ask(alloc, space, words)?;
    Ok(Event {
        by,
        moment: moment.0,
        ask,
    })
}

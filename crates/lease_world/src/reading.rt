//! The values that the lines of a script spell.
ghost use Rattle.std.specs.Prelude.{◌≡◌, ◌≢◌, ◌<◌, ◌^◌, ◌∷◌, [], codes, decimal};
ghost use Rattle.std.specs.Int.{w64};
ghost use Rattle.std.specs.Fmt.{signed_decimal};
ghost use Rattle.journal.specs.Reading.{Finds};
ghost use Rattle.lease_world.specs.Script.{SpellsStep, StepWords, SpellsWorld, WorldWords};
ghost use Rattle.lease_world.specs.Words.{IsWorldLine, AreWorldWords};

use crate::number::{read_client, read_clients, read_count};
use crate::step::Step;
use crate::words::{Words, words_of};
use journal::{read_duration, read_signed};

/// The first line of a script, as values.
#[derive(Clone, Copy, Debug)]
pub(crate) struct WorldLine {
    /// The configured lease in milliseconds.
    pub lease_ms: u64,
    /// The time to acknowledge in milliseconds.
    pub ack_ms: u64,
    /// The number of clients.
    pub clients: u8,
}

/// The values of a first line. It is None exactly where the line is none.
pub(crate) fn read_world_line(line: &[u8]) -> Option<WorldLine>
    ensures { Finds IsWorldLine result line.now }
{
    match words_of(line)? {
        Words::One(_) => None,
        Words::Two(_, _) => None,
        Words::Three(_, _, _) => None,
        Words::Four(keyword, lease, ack, clients) => world_line(keyword, lease, ack, clients),
    }
}

/// The values of a first line of these words.
fn world_line(keyword: &[u8], lease: &[u8], ack: &[u8], clients: &[u8]) -> Option<WorldLine>
    ensures { Finds AreWorldWords result (keyword.now ∷ lease.now ∷ ack.now ∷ clients.now ∷ []) }
{
    if keyword != b"world".as_slice() {
        return None;
    }
    let lease_ms = read_duration(lease)?;
    let ack_ms = read_duration(ack)?;
    let clients = read_clients(clients)?;
    Some(WorldLine {
        lease_ms,
        ack_ms,
        clients,
    })
}

/// The step that a line spells. It is None exactly where the line spells none.
pub(crate) fn read_step(line: &[u8]) -> Option<Step>
    ensures { Finds SpellsStep result line.now }
{
    match words_of(line)? {
        Words::One(keyword) => plain_step(keyword),
        Words::Two(keyword, word) => numbered_step(keyword, word),
        Words::Three(keyword, client, number) => client_step(keyword, client, number),
        Words::Four(_, _, _, _) => None,
    }
}

/// The step that a keyword alone spells.
fn plain_step(keyword: &[u8]) -> Option<Step>
    ensures { Finds StepWords result (keyword.now ∷ []) }
{
    match keyword {
        b"make" => Some(Step::Make),
        b"tick" => Some(Step::Tick),
        _ => None,
    }
}

/// The step that a keyword and a number spell.
fn numbered_step(keyword: &[u8], word: &[u8]) -> Option<Step>
    ensures { Finds StepWords result (keyword.now ∷ word.now ∷ []) }
{
    if keyword == b"due".as_slice() {
        let client = read_client(word)?;
        return Some(Step::Due { client });
    }
    let number = read_count(word)?;
    counted_step(keyword, number)
}

/// The step that a keyword other than `due` and this number spell.
fn counted_step(keyword: &[u8], number: u64) -> Option<Step>
    requires count { number < 2 ^ 63 }
    requires no_due { keyword.now ≢ codes "due" }
    ensures { Finds StepWords result (keyword.now ∷ decimal number ∷ []) }
{
    match keyword {
        b"at" => Some(Step::At { moment: number }),
        b"ack" => Some(Step::Ack { make: number }),
        b"deliver" => Some(Step::Deliver { call: number }),
        b"answer" => Some(Step::Answer { call: number }),
        b"fail" => Some(Step::Fail { call: number }),
        _ => None,
    }
}

/// The step that a keyword, a client and a number spell.
fn client_step(keyword: &[u8], client: &[u8], word: &[u8]) -> Option<Step>
    ensures { Finds StepWords result (keyword.now ∷ client.now ∷ word.now ∷ []) }
{
    let client = read_client(client)?;
    let number = read_signed(word)?;
    match keyword {
        b"register" => Some(Step::Register { client, number }),
        b"drop" => Some(Step::Release { client, number }),
        b"ask" => Some(Step::Ask {
            client,
            asked: number,
        }),
        _ => None,
    }
}

//! The lines of an outline. After a refusal, which comes only for want of memory, a front of the line stands appended.
ghost use Rattle.std.specs.Prelude.{◌≡◌, ◌++◌, map, flat_map, Some, OnOk, OnErr};
ghost use Rattle.std.specs.List.{AllByRecursion, join_with_byte};
ghost use Rattle.history.specs.Texts.{line};
ghost use Rattle.history.specs.Names.{stands_for};
ghost use Rattle.history.specs.Outline.{object_line, lease_line, name_line, withdrawal_line};
ghost use Rattle.history.specs.Places.{History};
ghost use Rattle.journal.specs.Putting.{AppendsFront};
ghost use Rattle.journal.specs.Rows.{word_text, further_text, events_text, named_text, WordFits};

use crate::listed::{put_kinds, put_objects};
use crate::put::{put_client, put_decimal, put_name, put_object, put_signed, put_uid};
use history::{Name, SpaceConfig};
use object_ids::{ObjId, ObjIds, Uid, Vmid};
use sequence::{ByteList, Kinds};
use std::alloc::AllocError;
use std::marker::Model;

/// A word of a line.
#[derive(Drop)]
pub enum Word<'a> {
    /// This very text.
    Text(&'a [u8]),
    /// A number in decimal digits.
    Number(u64),
    /// An object: the number of one of this space, or N:U/T/C.
    Object { space: Uid, object: ObjId },
    /// A client as ADDR@U/T/C.
    Client(&'a Vmid),
    /// A name in quotation marks.
    Name(&'a Name),
    /// A number in decimal digits, with a minus sign where it is below 0.
    Signed(i64),
    /// An identifier as U/T/C.
    Uid(Uid),
    /// Kinds of objects, joined by commas, or `-` where there are none.
    Kinds(&'a Kinds),
    /// Objects, joined by commas, or `-` where there are none.
    Objects { space: Uid, objects: &'a ObjIds },
}

/// Appends a line of words, which are separated by one space and end with LF.
pub fn put_line(out: &mut ByteList, words: &[Word]) -> Result<(), AllocError>
    ensures ok { OnOk result (out.new ≡ out.old ++ line (map word_text words.now)) }
    ensures err { OnErr result (AppendsFront out.old (line (map word_text words.now)) out.new) }
{
    put_words(out, words)?;
    out.push(b'\n')
}

/// Appends words, separated by one space.
pub(crate) fn put_words(out: &mut ByteList, words: &[Word]) -> Result<(), AllocError>
    ensures ok { OnOk result (out.new ≡ out.old ++ join_with_byte 32 (map word_text words.now)) }
    ensures err { OnErr result
        (AppendsFront out.old (join_with_byte 32 (map word_text words.now)) out.new) }
    ensures fits { OnOk result (AllByRecursion WordFits words.now) }
{
    let Some((first, others)) = words.split_first() else {
        return Ok(());
    };
    put_word(out, first)?;
    put_further_words(out, others)
}

/// Appends words, each after a space.
fn put_further_words(out: &mut ByteList, words: &[Word]) -> Result<(), AllocError>
    ensures ok { OnOk result (out.new ≡ out.old ++ flat_map further_text words.now) }
    ensures err { OnErr result (AppendsFront out.old (flat_map further_text words.now) out.new) }
    ensures fits { OnOk result (AllByRecursion WordFits words.now) }
{
    for word in words {
        put_further_word(out, word)?;
    }
    Ok(())
}

/// Appends a word after a space.
fn put_further_word(out: &mut ByteList, word: &Word) -> Result<(), AllocError>
    ensures ok { OnOk result (out.new ≡ out.old ++ further_text word.now) }
    ensures err { OnErr result (AppendsFront out.old (further_text word.now) out.new) }
    ensures fits { OnOk result (WordFits word.now) }
{
    out.push(b' ')?;
    put_word(out, word)
}

/// Appends a word.
fn put_word(out: &mut ByteList, word: &Word) -> Result<(), AllocError>
    ensures ok { OnOk result (out.new ≡ out.old ++ word_text word.now) }
    ensures err { OnErr result (AppendsFront out.old (word_text word.now) out.new) }
    ensures fits { OnOk result (WordFits word.now) }
{
    match word {
        Word::Text(text) => out.append(*text),
        Word::Number(n) => put_decimal(out, *n),
        Word::Object { space, object } => put_object(out, *space, *object),
        Word::Client(client) => put_client(out, *client),
        Word::Name(name) => put_name(out, *name),
        Word::Signed(n) => put_signed(out, *n),
        Word::Uid(uid) => put_uid(out, *uid),
        Word::Kinds(kinds) => put_kinds(out, kinds.as_slice()),
        Word::Objects { space, objects } => put_objects(out, *space, objects.as_slice()),
    }
}

/// The line of an outline for an exported object. Contracts see it as a row of the outline.
#[derive(Drop)]
pub struct ObjectRow {
    /// The object.
    pub object: ObjId,
    /// Its kind.
    pub kind: u32,
    /// True where the object was opened pinned.
    pub pinned: bool,
    /// The number of calls of it that run.
    pub running: u64,
    /// The number of returned references to it that await their acknowledgement.
    pub awaiting: u64,
    /// The number of clients that hold it.
    pub held: u64,
    /// The number of names that stand for it.
    pub names: u64,
}

impl Model for ObjectRow {
    ghost use Rattle.history.specs.Outline.{ObjectRow as Row};

    ghost Value = { Row };

    ghost view = { λ r. record {
      object = r.object;
      kind = r.kind;
      pinned = r.pinned;
      running = r.running;
      awaiting = r.awaiting;
      held = r.held;
      names = r.names;
    } };
}

/// Appends an outline's first line: how many events there are, how many units they have, and the
/// greatest moment in milliseconds.
pub fn put_events_line(
    out: &mut ByteList,
    events: u64,
    units: u64,
    now: u64,
) -> Result<(), AllocError>
    ensures ok { OnOk result (out.new ≡ out.old ++ events_text events units now) }
    ensures err { OnErr result (AppendsFront out.old (events_text events units now) out.new) }
{
    put_line(
        out,
        &[
            Word::Text(b"events"),
            Word::Number(events),
            Word::Text(b"units"),
            Word::Number(units),
            Word::Text(b"now"),
            Word::Number(now),
        ],
    )
}

/// Appends the line of an exported object.
pub fn put_object_line(
    out: &mut ByteList,
    config: SpaceConfig,
    row: &ObjectRow,
) -> Result<(), AllocError>
    ensures ok { OnOk result (out.new ≡ out.old ++ object_line config row.now) }
    ensures err { OnErr result (AppendsFront out.old (object_line config row.now) out.new) }
{
    let pinned: &[u8] = if row.pinned { b"pinned" } else { b"free" };
    put_line(
        out,
        &[
            Word::Text(b"object"),
            Word::Object {
                space: config.uid,
                object: row.object,
            },
            Word::Text(b"kind"),
            Word::Number(u64::from(row.kind)),
            Word::Text(pinned),
            Word::Text(b"running"),
            Word::Number(row.running),
            Word::Text(b"awaiting"),
            Word::Number(row.awaiting),
            Word::Text(b"held"),
            Word::Number(row.held),
            Word::Text(b"names"),
            Word::Number(row.names),
        ],
    )
}

/// Appends the line of a client with time left, and of the moment in milliseconds at which its lease ends.
pub fn put_lease_line(out: &mut ByteList, client: &Vmid, until: u64) -> Result<(), AllocError>
    ensures ok { OnOk result
        (out.new ≡ out.old ++ lease_line (record { client = client.now; until = until })) }
    ensures err { OnErr result
        (AppendsFront out.old (lease_line (record { client = client.now; until = until }))
        out.new) }
{
    put_line(
        out,
        &[
            Word::Text(b"lease"),
            Word::Client(client),
            Word::Text(b"until"),
            Word::Number(until),
        ],
    )
}

/// Appends the line of a name and of the object for which it stands.
pub fn put_name_line(
    out: &mut ByteList,
    config: SpaceConfig,
    name: &Name,
    object: ObjId,
) -> Result<(), AllocError>
    ensures ok { OnOk result (out.new ≡ out.old ++ named_text config.uid name.now object) }
    ensures err { OnErr result
        (AppendsFront out.old (named_text config.uid name.now object) out.new) }

    // It is the line of the name in the outline of each history in which the name stands for the object.
    ensures named { (h : History) → stands_for h name.now ≡ Some object
        → OnOk result (out.new ≡ out.old ++ name_line config h name.now) }
{
    put_line(
        out,
        &[
            Word::Text(b"name"),
            Word::Name(name),
            Word::Object {
                space: config.uid,
                object,
            },
        ],
    )
}

/// Appends the line of a withdrawn object and of the place of the event that withdrew it, from 0.
pub fn put_withdrawal_line(
    out: &mut ByteList,
    config: SpaceConfig,
    object: ObjId,
    place: u64,
) -> Result<(), AllocError>
    ensures ok { OnOk result
        (out.new ≡ out.old ++ withdrawal_line config (record { object = object; place = place })) }
    ensures err { OnErr result
        (AppendsFront out.old (withdrawal_line config (record { object = object; place = place }))
        out.new) }
{
    put_line(
        out,
        &[
            Word::Text(b"withdrawn"),
            Word::Object {
                space: config.uid,
                object,
            },
            Word::Text(b"place"),
            Word::Number(place),
        ],
    )
}

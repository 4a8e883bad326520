//! The answers to events, as lines.
use history::{Refused, Reply, Turn};
use journal::Word;
use journal::outline::put_line;
use journal::put::put_units;
use object_ids::{FullKind, ObjIds, Uid};
use sequence::{ByteList, NameList};
use std::alloc::AllocError;

/// Appends the lines of an answer, in the journal of the space of this identifier: `> REPLY` or `> REFUSAL`, and `> gone OBJECTS` where
/// objects are told as gone.
pub(crate) fn put_answer(
    text: &mut ByteList,
    space: Uid,
    answer: &Result<Turn, Refused>,
) -> Result<(), AllocError> {
    match answer {
        Ok(turn) => put_turn(text, space, turn),
        Err(refused) => put_refusal(text, *refused),
    }
}

/// Appends the lines of a turn.
pub(crate) fn put_turn(text: &mut ByteList, space: Uid, turn: &Turn) -> Result<(), AllocError> {
    put_reply(text, space, &turn.reply)?;
    put_gone(text, space, &turn.gone)
}

/// Appends the line of a refusal.
pub(crate) fn put_refusal(text: &mut ByteList, refused: Refused) -> Result<(), AllocError> {
    put_line(text, &[Word::Text(b">"), Word::Text(refusal(refused))])
}

fn refusal(refused: Refused) -> &'static [u8] {
    match refused {
        Refused::HistoryFull => b"history full",
        Refused::Full(FullKind::Exports) => b"exports full",
        Refused::Full(FullKind::Awaiting) => b"awaiting full",
        Refused::Full(FullKind::Clients) => b"clients full",
        Refused::Full(FullKind::Pairs) => b"pairs full",
        Refused::Full(FullKind::Names) => b"names full",
        Refused::OutOfMemory => b"out of memory",
    }
}

fn put_gone(text: &mut ByteList, space: Uid, gone: &ObjIds) -> Result<(), AllocError> {
    if gone.is_empty() {
        return Ok(());
    }
    let objects = Word::Objects {
        space,
        objects: gone,
    };
    put_line(text, &[Word::Text(b"> gone"), objects])
}

fn put_reply(text: &mut ByteList, space: Uid, reply: &Reply) -> Result<(), AllocError> {
    match reply {
        Reply::Opened(object) => {
            let object = Word::Object {
                space,
                object: *object,
            };
            put_line(text, &[Word::Text(b"> opened"), object])
        }
        Reply::Started(kind) => {
            let kind = Word::Number(u64::from(*kind));
            put_line(text, &[Word::Text(b"> started"), kind])
        }
        Reply::Finished(objects) => {
            let objects = Word::Objects { space, objects };
            put_line(text, &[Word::Text(b"> finished"), objects])
        }
        Reply::Granted(duration) => {
            put_line(text, &[Word::Text(b"> granted"), Word::Number(*duration)])
        }
        Reply::Found(object, kind) => {
            let object = Word::Object {
                space,
                object: *object,
            };
            let kind = Word::Number(u64::from(*kind));
            put_line(
                text,
                &[Word::Text(b"> found"), object, Word::Text(b"kind"), kind],
            )
        }
        Reply::Names(names) => {
            text.append(b"> ")?;
            put_names(text, names)?;
            text.push(b'\n')
        }
        _ => put_line(text, &[Word::Text(b">"), Word::Text(said(reply))]),
    }
}

/// The words of a reply without more.
fn said(reply: &Reply) -> &'static [u8] {
    match reply {
        Reply::NoObject => b"no object",
        Reply::NotRunning => b"not running",
        Reply::Bound => b"bound",
        Reply::AlreadyBound => b"already bound",
        Reply::Unbound => b"unbound",
        Reply::NotBound => b"not bound",
        // no other reply is without more
        _ => b"done",
    }
}

/// Appends the words of a list of names.
pub(crate) fn put_names(text: &mut ByteList, names: &NameList) -> Result<(), AllocError> {
    text.append(b"names")?;
    for units in names.iter() {
        text.append(b" \"")?;
        put_units(text, units.as_slice())?;
        text.push(b'"')?;
    }
    Ok(())
}

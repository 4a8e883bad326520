//! Turns with their entries.
ghost use Rattle.std.specs.Prelude.{◌≡◌, ◌≢◌, ◌≤◌, ◌<◌, ℕ, List, length, Err, IfOk, OnOk, OnErr, vec_capacity};
ghost use Rattle.object_ids.specs.declared.ids.ObjId.{ObjId};
ghost use Rattle.history.specs.declared.asks.Ask.TheVariants.{List as ListNames};
ghost use Rattle.history.specs.declared.replies.Reply.TheVariants.{Finished, Names as NamesReply};
ghost use Rattle.history.specs.Collector.{Collects};
ghost use Rattle.history.specs.Running.{running_calls_by};
ghost use Rattle.history.specs.Steps.{Step};
ghost use Rattle.history.specs.Table.{places};
ghost use Rattle.history.specs.declared.limits.TheConstants.{END_OF_TIME};
ghost use Rattle.space.specs.Acts.{event_of};
ghost use Rattle.space.specs.Entries.{entry_of};
ghost use Rattle.space.specs.Noted.{HasRoomFor, NoteFits, made_by, turn_answer};
ghost use Rattle.space.specs.TurnAnswers.{IsAnswerTo};
ghost use Rattle.rmi_registry.specs.Bindings.{names_in, IsRegistry};

use crate::acts::fill_list;
use crate::asked::{Asked, AskedEnd};
use crate::turns::Space;
use history::{Ask, Refused, Reply, Turn};
use object_ids::{ObjId, ObjIds};
use rmi_registry::Names;
use sequence::NameList;
use std::alloc::{AllocError, Global};

impl Space {
    /// Does what `turn` does, and returns its answer with the entry of the turn. It takes all memory before it
    /// appends the event. Where there is none, the space is as it was. Its conditions are those of `turn`.
    pub fn turn_noted(
        &mut self,
        by: u32,
        moment: u64,
        ask: Ask,
    ) -> Result<(Result<Turn, Refused>, Asked), AllocError>
        requires moment { moment < END_OF_TIME }
        ensures step { IfOk result (λ x. Step self.old.configuration self.old.events
            (event_of by moment ask) x.0 self.new.events) }
        ensures collector { IfOk result (λ x. OnOk x.0
            (Collects self.old.configuration self.old.events self.old.rows (event_of by moment ask)
            self.new.events self.new.rows)) }
        ensures noted { IfOk result (λ x. x.1 ≡ entry_of moment ask x.0) }
        ensures row { IfOk result (λ x. IsAnswerTo
            (λ o. 0 < running_calls_by (places self.old.configuration self.old.events) by o) ask
            x.0) }
        ensures known { IfOk result (λ x. x.0 ≢ Err Refused.OutOfMemory) }
        ensures refused { IfOk result (λ x. OnErr x.0 (self.new ≡ self.old)) }
        ensures config { self.new.configuration ≡ self.old.configuration }
        ensures err { OnErr result (self.new ≡ self.old) }
    {
        match take_note(self.tables.alloc, &self.tables.names, &ask) {
            Ok(note) => {
                let answer = self.turn_with(by, moment, ask, true);
                with_entry(moment, note, answer)
            }
            Err(refused) => {
                // By hand, so that it is dropped in one call and not field by field.
                drop(ask);
                Err(refused)
            }
        }
    }
}

/// A copy of an ask, and room for a copy of its turn.
#[derive(Drop)]
struct Note {
    /// The ask.
    ask: Ask,
    /// Room for the identifiers that the turn answers.
    ids: Vec<ObjId>,
    /// The names that it answers.
    names: NameList,
}

/// A copy of an ask, and room for a copy of its turn.
fn take_note(alloc: Global, names: &Names, ask: &Ask) -> Result<Note, AllocError>
    ensures ask { IfOk result (λ n. n.ask ≡ ask.now) }
    ensures ids { IfOk result (λ n. made_by ask.now ≤ vec_capacity n.ids) }
    ensures names { IfOk result (λ n. ask.now ≡ ListNames → n.names ≡ names_in names.now) }
    ensures sound { IsRegistry names.now }
{
    let names = names_for(alloc, names, ask)?;
    let ids = Vec::with_capacity(alloc, made_by(ask))?;
    let ask = ask.copy(alloc)?;
    Ok(Note { ask, ids, names })
}

/// Returns the number of objects that a request makes by a return. The reply may have their identifiers.
fn made_by(ask: &Ask) -> usize
    ensures { result ≡ made_by ask.now }
{
    match ask {
        Ask::Finish {
            object: _,
            made,
            listed: _,
            uid: _,
        } => made.len(),
        _ => 0,
    }
}

/// The names, where an ask asks for them.
fn names_for(alloc: Global, names: &Names, ask: &Ask) -> Result<NameList, AllocError>
    ensures names { IfOk result (λ list. ask.now ≡ ListNames → list ≡ names_in names.now) }
    ensures sound { IsRegistry names.now }
{
    let _count = names.len();
    match ask {
        Ask::List => names.list(alloc),
        _ => Ok(NameList::new(alloc)),
    }
}

/// A turn's answer with its entry, unless there was no memory.
fn with_entry(
    moment: u64,
    note: Note,
    answer: Result<(Turn, ObjIds), Refused>,
) -> Result<(Result<Turn, Refused>, Asked), AllocError>
    requires fits { NoteFits answer note }
    ensures answer { IfOk result (λ x. x.0 ≡ turn_answer answer) }
    ensures noted { IfOk result (λ x. x.1 ≡ entry_of moment note.ask (turn_answer answer)) }
    ensures known { IfOk result (λ x. x.0 ≢ Err Refused.OutOfMemory) }
    ensures err { OnErr result (turn_answer answer ≡ Err Refused.OutOfMemory) }
{
    let Note { ask, ids, names } = note;
    match answer {
        Ok((turn, gone)) => {
            let end = AskedEnd::Turned(copy_of_turn(&turn, ids, gone, names));
            Ok((Ok(turn), Asked { moment, ask, end }))
        }
        Err(Refused::OutOfMemory) => {
            // By hand, so that it is dropped in one call and not field by field.
            drop(ask);
            Err(AllocError)
        }
        Err(refused) => {
            let end = AskedEnd::Refused(refused);
            Ok((Err(refused), Asked { moment, ask, end }))
        }
    }
}

/// A copy of a turn, where these are the objects that it tells as gone. There is room for its identifiers, and `names` are those that it
/// answers.
fn copy_of_turn(turn: &Turn, ids: Vec<ObjId>, gone: ObjIds, names: NameList) -> Turn
    requires { HasRoomFor turn.now gone (vec_capacity ids) names }
    ensures { result ≡ turn.now }
{
    Turn {
        place: turn.place,
        reply: copy_of_reply(&turn.reply, ids, names),
        gone,
    }
}

fn copy_of_reply(reply: &Reply, ids: Vec<ObjId>, names: NameList) -> Reply
    requires ids { (os : List ObjId) → reply.now ≡ Finished os → length os ≤ vec_capacity ids }
    requires names { (ns : List (List ℕ)) → reply.now ≡ NamesReply ns → names ≡ ns }
    ensures { result ≡ reply.now }
{
    match reply {
        Reply::Opened(object) => Reply::Opened(*object),
        Reply::Started(kind) => Reply::Started(*kind),
        Reply::NoObject => Reply::NoObject,
        Reply::Finished(objects) => Reply::Finished(fill_list(ids, objects)),
        Reply::NotRunning => Reply::NotRunning,
        Reply::Granted(duration) => Reply::Granted(*duration),
        Reply::Done => Reply::Done,
        Reply::Bound => Reply::Bound,
        Reply::AlreadyBound => Reply::AlreadyBound,
        Reply::Unbound => Reply::Unbound,
        Reply::NotBound => Reply::NotBound,
        Reply::Found(object, kind) => Reply::Found(*object, *kind),
        Reply::Names(_names) => Reply::Names(names),
    }
}

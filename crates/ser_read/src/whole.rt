//! Streams that are read to the end of the input.
ghost use Rattle.std.specs.Prelude.{◌≡◌, ◌≤◌, ◌<◌, ◌+◌, ◌-◌, [], length, take, false, List, ℕ, Some, IfOk, IfErr, IfSome, IsErrAnd};
ghost use Rattle.class_desc.specs.declared.slot.Item.{Item as OneItem};
ghost use Rattle.wire_io.specs.Wire.{NothingLeft};
ghost use Rattle.wire_io.specs.Pulled.{pull_state, Takes};
ghost use Rattle.ser_values.specs.declared.node.Node.{Node};
ghost use Rattle.ser_values.specs.declared.node.SlotPlace.TheVariants.{Reference};
ghost use Rattle.ser_values.specs.declared.limits.TheConstants.{LEVELS};
ghost use Rattle.stream_grammar.specs.Reading.{short, byte_at, items_at, slot_at};
ghost use Rattle.stream_grammar.specs.Spelled.{IsStream};
ghost use Rattle.ser_read.specs.declared.fault.StreamFault.TheVariants.{Truncated, TooLarge};
ghost use Rattle.ser_read.specs.declared.fault.Large.TheVariants.{Bytes};
ghost use Rattle.ser_read.specs.Tables.{now_of};
ghost use Rattle.ser_read.specs.Here.{Caused, Fails, Gives, Reads};
ghost use Rattle.ser_read.specs.Whole.{stream_at, going_on, ReadsAll, BreaksWhole, NoCode, TakesStream, AnswersGraph};

use crate::fault::{Large, StreamFault};
use crate::header::magic;
use crate::pieces::add;
use crate::reading::annotations::item;
use crate::table::Table;
use class_desc::Items;
use ser_values::Graph;
use ser_values::limits::LEVELS;
use std::alloc::Global;
use wire_io::pull::{Pull, PullEnd};
use wire_io::source::Source;

/// The next code, or none where the input ends.
fn next_code<S: Source>(pull: &mut Pull<'_, S>) -> Result<Option<u8>, StreamFault>
    ensures lent { pull.new.source.ghost_name ≡ pull.old.source.ghost_name }
    ensures reads { IfOk result
        (λ code. IfSome code (λ b. Reads short (pull_state S.half pull.old)
        (pull_state S.half pull.new) (λ end. byte_at) (λ rest. (b, rest)))) }
    ensures ends { IfOk result (λ code. code ≡ None
        → Takes (pull_state S.half pull.old) (pull_state S.half pull.new) []
        × NothingLeft (S.half pull.new.source.now).left) }
    ensures stops { IfErr result
        (λ e. NoCode (pull_state S.half pull.old) (pull_state S.half pull.new) e) }
{
    match pull.byte() {
        Ok(code) => Ok(Some(code)),
        Err(end) => match end {
            PullEnd::End { at: _ } => Ok(None),
            PullEnd::Limit { at } => Err(StreamFault::TooLarge {
                what: Large::Bytes,
                at,
            }),
            PullEnd::ReadFault => Err(StreamFault::ReadFault),
            PullEnd::OutOfMemory => Err(StreamFault::OutOfMemory),
        },
    }
}

/// Items up to the end of the input.
fn items_to_end<S: Source>(
    alloc: Global,
    pull: &mut Pull<'_, S>,
    table: &mut Table,
) -> Result<Items, StreamFault>
    ensures lent { pull.new.source.ghost_name ≡ pull.old.source.ghost_name }
    ensures reads { IfOk result (λ items. ReadsAll (pull_state S.half pull.old)
        (pull_state S.half pull.new)
        (λ end. items_at end (slot_at end LEVELS Reference table.old.unread.items) false
        (now_of table.old)) (items, now_of table.new, [])) }
    ensures stops { IfErr result
        (λ e. BreaksWhole (pull_state S.half pull.old) (pull_state S.half pull.new) e
        (λ end. items_at end (slot_at end LEVELS Reference table.old.unread.items) false
        (now_of table.old))) }
{
    let mut items = Vec::new(alloc);
    loop {
        let at = pull.at;
        match next_code(pull)? {
            None => return Ok(Items::from_vec(items)),
            Some(code) => {
                let item = item(alloc, pull, table, at, code, LEVELS)?;
                add(&mut items, item)?;
            }
        }
    }
}

/// The graph of a stream.
fn graph<S: Source>(alloc: Global, pull: &mut Pull<'_, S>) -> Result<Graph, StreamFault>
    ensures lent { pull.new.source.ghost_name ≡ pull.old.source.ghost_name }
    ensures reads { IfOk result (λ graph. ReadsAll (pull_state S.half pull.old)
        (pull_state S.half pull.new) stream_at (graph.nodes, graph.items)) }
    ensures stops { IfErr result
        (λ e. BreaksWhole (pull_state S.half pull.old) (pull_state S.half pull.new) e stream_at) }
{
    magic(pull)?;
    let mut table = Table::new(alloc);
    let items = items_to_end(alloc, pull, &mut table)?;
    Ok(Graph::from_parts(table.into_nodes(), items))
}

/// Reads a whole stream, from the Pull's position to the end of its input: the magic, and every item.
///
/// `Truncated` comes where the input ends inside the stream, `TooLarge` of bytes where the message's limit is reached and
/// the input goes on, and each other fault at the first position at which the bytes are wrong. At a fault exactly the bytes
/// were taken that show it.
pub fn read_to_end<S: Source>(alloc: Global, pull: &mut Pull<'_, S>) -> Result<Graph, StreamFault>
    ensures lent { pull.new.source.ghost_name ≡ pull.old.source.ghost_name }
    ensures cause { Caused (S.half pull.old.source.now).faults (S.half pull.new.source.now).faults
        result }
    // Of told bytes that end before the stop, what is answered is what reading from left to right gives.
    ensures gives { (bytes : List ℕ) → (S.half pull.old.source.now).left ≡ Some bytes → length bytes
        ≤ pull.old.stop - pull.old.at
        → Gives (Truncated (pull.old.at + length bytes)) (λ graph. (graph.nodes, graph.items))
        result (stream_at (pull.old.at + length bytes) bytes) }
    // Of told bytes that go on past the stop, it is the first fault before it, or that there are too many.
    ensures limited { (bytes : List ℕ) → (S.half pull.old.source.now).left ≡ Some bytes
        → pull.old.stop - pull.old.at < length bytes
        → IsErrAnd result (λ e. Fails (TooLarge Bytes pull.old.stop) e
        (going_on (stream_at pull.old.stop (take (pull.old.stop - pull.old.at) bytes)))) }
    // The bytes that were taken are a stream of the graph, told or not, or come to the fault.
    ensures taken { IfOk result (λ graph. TakesStream (pull_state S.half pull.old)
        (pull_state S.half pull.new) graph.nodes graph.items) }
    ensures stops { IfErr result
        (λ e. BreaksWhole (pull_state S.half pull.old) (pull_state S.half pull.new) e stream_at) }
    // Each stream that is told to its end before the stop is read, unless the outside fails.
    ensures complete { (bytes : List ℕ) (nodes : List Node) (items : List OneItem)
        → (S.half pull.old.source.now).left ≡ Some bytes → length bytes
        ≤ pull.old.stop - pull.old.at
        → IsStream nodes items bytes → AnswersGraph nodes items result }
{
    graph(alloc, pull)
}

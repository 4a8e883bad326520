//! Returns as they are read.
ghost use Rattle.std.specs.Prelude.{◌≡◌, ◌<◌, ◌∷◌, [], true, is_some, IfOk, IfErr, OnOk, Some, None};
ghost use Rattle.wire_io.specs.Pulled.{pull_state};
ghost use Rattle.ser_values.specs.Fronts.{without_front};
ghost use Rattle.ser_read.specs.Wants.{WantStopsTaken, WantReadsTaken, serve, serve_to_close};
ghost use Rattle.jrmp_frames.specs.Calls.{CausedIn};
ghost use Rattle.jrmp_frames.specs.Returns.{carried_type, wants_carried, kind_of_byte, kind_at, contents_at, behind_kind, return_at, TakesReturn, ReadsReturn, BreaksReturn, GivesReturn, HasKind, ReadsCarried, ReadsToClose, ReadsContents, IsBodyOf};

use crate::arguments::{Arg, read_arg};
use crate::fault::FrameFault;
use crate::message::Body;
use class_desc::TypeCode;
use object_ids::{Uid, uid_of};
use ser_read::{Reader, StreamFault};
use ser_values::Graph;
use std::alloc::Global;
use wire_io::pull::Pull;
use wire_io::source::Source;

/// The number of bytes that a return begins with: its kind and its identifier.
const FRONT_BYTES: usize = 15;

/// Returns true where a return of this kind has a result, `01`, and false where it has an exception, `02`. For any
/// other byte it returns None.
fn kind_of(byte: u8) -> Option<bool>
    ensures { result ≡ kind_of_byte byte }
{
    match byte {
        1 => Some(true),
        2 => Some(false),
        _ => None,
    }
}

/// The type of what a return carries: a result of the method, or an exception.
fn carried_type(result_type: Option<TypeCode>, normal: bool) -> Option<TypeCode>
    ensures { result ≡ carried_type result_type normal }
{
    if normal {
        result_type
    } else {
        Some(TypeCode::Object)
    }
}

/// Reads the stream's magic number and version, and then the byte of a return's kind, whatever it is.
#[tactic(auto, unfolding(crate::specs::Returns::kind_at))]
fn read_kind<S: Source>(alloc: Global, pull: &mut Pull<'_, S>) -> Result<(u8, Reader), StreamFault>
    ensures lent { pull.new.source.ghost_name ≡ pull.old.source.ghost_name }
    ensures kept { IfOk result (λ x. HasKind x.1) }
    ensures moved { OnOk result (pull.old.at < pull.new.at) }
    ensures reads { WantReadsTaken S.half pull.old pull.new result kind_at
        (λ x rest. (x.0 ∷ [], x.1.stand, rest)) }
    ensures stops { WantStopsTaken S.half pull.old pull.new result kind_at }
{
    let mut reader = Reader::start(alloc, pull)?;
    let mut kind = [0; 1];
    reader.bytes_into(alloc, pull, &mut kind)?;
    Ok((kind[0], reader))
}

/// Reads what is carried, of this type, or nothing.
fn read_carried<S: Source>(
    alloc: Global,
    pull: &mut Pull<'_, S>,
    reader: &mut Reader,
    code: Option<TypeCode>,
) -> Result<Option<Arg>, StreamFault>
    requires kept { reader.old.refused ≡ None }
    ensures kept { OnOk result (reader.new.refused ≡ None) }
    ensures lent { pull.new.source.ghost_name ≡ pull.old.source.ghost_name }
    ensures reads { IfOk result
        (ReadsCarried (pull_state S.half pull.old) (pull_state S.half pull.new) reader.old.stand
        reader.new.stand code) }
    ensures stops { WantStopsTaken S.half pull.old pull.new result
        (λ end. serve end (wants_carried code) reader.old.stand) }
{
    match code {
        None => Ok(None),
        Some(code) => {
            let arg = read_arg(alloc, pull, reader, code)?;
            Ok(Some(arg))
        }
    }
}

/// Reads what is carried, of this type, or nothing, up to the end, and gives the graph of the whole stream.
#[tactic(auto, unfolding(ser_read::specs::Wants::serve_to_close))]
fn read_to_close<S: Source>(
    alloc: Global,
    pull: &mut Pull<'_, S>,
    reader: Reader,
    code: Option<TypeCode>,
) -> Result<(Option<Arg>, Graph), StreamFault>
    requires kept { reader.refused ≡ None }
    ensures lent { pull.new.source.ghost_name ≡ pull.old.source.ghost_name }
    ensures reads { IfOk result (λ x. ReadsToClose (pull_state S.half pull.old)
        (pull_state S.half pull.new) reader.stand code x.0 x.1) }
    ensures stops { WantStopsTaken S.half pull.old pull.new result
        (λ end. serve_to_close end (wants_carried code) reader.stand) }
{
    let mut reader = reader;
    let arg = read_carried(alloc, pull, &mut reader, code)?;
    let whole = reader.close(pull)?;
    Ok((arg, whole))
}

/// A return's graph less the bytes that it begins with.
fn without_kind_and_uid(alloc: Global, whole: Graph) -> Graph
    requires { is_some (without_front 15 whole.items) ≡ true }
    ensures nodes { result.nodes ≡ whole.nodes }
    ensures items { without_front 15 whole.items ≡ Some result.items }
{
    match whole.without_front(alloc, FRONT_BYTES) {
        Some(graph) => graph,
        None => unreachable!(),
    }
}

/// The body that an argument is, from the graph of the whole stream.
fn body_of(alloc: Global, arg: Option<Arg>, whole: Graph) -> Body
    requires { is_some (without_front 15 whole.items) ≡ true }
    ensures { IsBodyOf arg whole.nodes (without_front 15 whole.items) result }
{
    match arg {
        None => Body::Void,
        Some(arg) => match arg {
            Arg::Prim(value) => Body::Prim(value),
            Arg::Ref(_slot) => Body::Tree(without_kind_and_uid(alloc, whole)),
        },
    }
}

/// Reads what follows the kind of a return: its identifier, and what it carries, of this type, or nothing.
fn read_contents<S: Source>(
    alloc: Global,
    pull: &mut Pull<'_, S>,
    reader: Reader,
    code: Option<TypeCode>,
) -> Result<(Uid, Body), StreamFault>
    requires ready { HasKind reader }
    ensures lent { pull.new.source.ghost_name ≡ pull.old.source.ghost_name }
    ensures reads { IfOk result (λ x. ReadsContents (pull_state S.half pull.old)
        (pull_state S.half pull.new) reader.stand code x.0 x.1) }
    ensures stops { WantStopsTaken S.half pull.old pull.new result
        (λ end. contents_at code end reader.stand) }
{
    let mut reader = reader;
    let mut bytes = [0; 14];
    reader.bytes_into(alloc, pull, &mut bytes)?;
    let read = read_to_close(alloc, pull, reader, code)?;
    let (arg, whole) = read;
    Ok((uid_of(bytes), body_of(alloc, arg, whole)))
}

/// Reads what follows this byte in the place of a return's kind.
fn read_behind<S: Source>(
    alloc: Global,
    pull: &mut Pull<'_, S>,
    byte: u8,
    reader: Reader,
    result_type: Option<TypeCode>,
) -> Result<(bool, Uid, Body), FrameFault>
    requires ready { HasKind reader }
    requires moved { 0 < pull.old.at }
    ensures lent { pull.new.source.ghost_name ≡ pull.old.source.ghost_name }
    ensures reads { IfOk result (λ x. ReadsReturn (pull_state S.half pull.old)
        (pull_state S.half pull.new) (λ end. behind_kind result_type byte end reader.stand)
        result_type x.0 x.1 x.2) }
    ensures stops { IfErr result (λ fault. BreaksReturn (pull_state S.half pull.old)
        (pull_state S.half pull.new) fault (λ end. behind_kind result_type byte end reader.stand)) }
{
    let Some(normal) = kind_of(byte) else {
        return Err(FrameFault::BadKind {
            byte,
            at: pull.at - 1,
        });
    };
    match read_contents(alloc, pull, reader, carried_type(result_type, normal)) {
        Ok(contents) => {
            let (uid, body) = contents;
            Ok((normal, uid, body))
        }
        Err(fault) => Err(FrameFault::Stream(fault)),
    }
}

/// Reads a return, which follows the code `51`, for a method whose result has this type, or that has none: whether it is normal, its
/// identifier, and its body. A normal return of a method without a result has the body Void, and an exceptional one is a Tree.
///
/// `BadKind` comes exactly at a kind that is neither `01` nor `02`, before the identifier is read. Each other fault comes as at
/// [`Reader::start`], [`Reader::bytes`] and [`Reader::slot`], and `BlockLeft` where bytes of a block are left behind the body.
pub fn read_return<S: Source>(
    alloc: Global,
    pull: &mut Pull<'_, S>,
    result_type: Option<TypeCode>,
) -> Result<(bool, Uid, Body), FrameFault>
    ensures reads { IfOk result (λ x. ReadsReturn (pull_state S.half pull.old)
        (pull_state S.half pull.new) (return_at result_type) result_type x.0 x.1 x.2) }
    ensures message { IfOk result (λ x. TakesReturn (pull_state S.half pull.old)
        (pull_state S.half pull.new) result_type x.0 x.1 x.2) }
    ensures stops { IfErr result (λ fault. BreaksReturn (pull_state S.half pull.old)
        (pull_state S.half pull.new) fault (return_at result_type)) }
    ensures gives { GivesReturn S.half pull.old pull.new result_type result }
    ensures cause { CausedIn (S.half pull.old.source.now).faults (S.half pull.new.source.now).faults
        result }
    ensures lent { pull.new.source.ghost_name ≡ pull.old.source.ghost_name }
{
    match read_kind(alloc, pull) {
        Ok(start) => {
            let (byte, reader) = start;
            read_behind(alloc, pull, byte, reader, result_type)
        }
        Err(fault) => Err(FrameFault::Stream(fault)),
    }
}

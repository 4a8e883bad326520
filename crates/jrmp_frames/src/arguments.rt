//! The arguments of a call.
ghost use Rattle.std.specs.Prelude.{◌≡◌, length, [], ◌∷◌, true, Some, is_some, IfOk, IfErr, OnOk, None};
ghost use Rattle.wire_io.specs.Pulled.{PullState, pull_state};
ghost use Rattle.ser_values.specs.Fronts.{without_front};
ghost use Rattle.ser_read.specs.Wants.{WantStopsTaken, want_at, serve, serve_to_close, wants_at};
ghost use Rattle.ser_read.specs.declared.serving.Want.TheVariants as wanted;
ghost use Rattle.jrmp_frames.specs.declared.head.CallHead.{CallHead};
ghost use Rattle.jrmp_frames.specs.Messages.{width_of, want_of, wants_of, value_of};
ghost use Rattle.jrmp_frames.specs.Calls.{HasHead, ReadsHead, ReadsArgument, ReadsEach, ReadsArguments, BreaksIn, CausedIn, TakesCall};

use crate::fault::FrameFault;
use crate::head::HEAD_BYTES;
use class_desc::{Slot, TypeCode};
use method_hash::Method;
use sequence::{Sequence, TryCopy};
use ser_read::{Reader, StreamFault, Want};
use ser_values::{Graph, Value};
use std::alloc::{AllocError, Global};
use wire_io::pull::Pull;
use wire_io::source::Source;

/// The number of bytes of the widest values of a primitive type.
const WIDEST: usize = 8;

/// One argument of a call.
#[derive(Clone, Copy, Debug, PartialEq, Eq)]
pub enum Arg {
    /// A number, a character or a truth value.
    Prim(Value),
    /// A reference.
    Ref(Slot),
}

impl TryCopy for Arg {
    fn try_copy(&self, _alloc: Global) -> Result<Arg, AllocError> {
        Ok(*self)
    }
}

/// A list of arguments.
pub type ArgList = Sequence<Arg>;

/// The arguments of a call in the order of the method's parameters, and the graph in which their references stand.
#[derive(Debug)]
pub struct Arguments {
    /// The graph of the call's stream after the head of the call.
    pub graph: Graph,
    /// One argument for each parameter.
    pub values: ArgList,
}

// Written out, so that whoever owns one has one call at each exit, and not the drop of each field.
impl Drop for Arguments {
    fn drop(self) {
        let Arguments { graph, values } = self;
        drop(graph);
        drop(values);
    }
}

impl Arguments {
    /// The graph. It takes no memory.
    pub fn into_graph(self) -> Graph
        ensures { result ≡ self.graph }
    {
        let Arguments { graph, values } = self;
        drop(values);
        graph
    }
}

/// Returns the want for a parameter of this type: bytes, or a reference.
fn want_of(code: TypeCode) -> Want
    ensures { result ≡ want_of code }
{
    match code {
        TypeCode::Byte | TypeCode::Boolean => Want::Bytes(1),
        TypeCode::Char | TypeCode::Short => Want::Bytes(2),
        TypeCode::Float | TypeCode::Int => Want::Bytes(4),
        TypeCode::Double | TypeCode::Long => Want::Bytes(8),
        TypeCode::Array | TypeCode::Object => Want::Slot,
    }
}

/// These two bytes as an array.
fn two_bytes(bytes: &[u8]) -> [u8; 2]
    requires { length bytes.now ≡ 2 }
    ensures { result ≡ bytes.now }
{
    let mut all = [0; 2];
    all.copy_from_slice(bytes);
    all
}

/// These four bytes as an array.
fn four_bytes(bytes: &[u8]) -> [u8; 4]
    requires { length bytes.now ≡ 4 }
    ensures { result ≡ bytes.now }
{
    let mut all = [0; 4];
    all.copy_from_slice(bytes);
    all
}

/// These eight bytes as an array.
fn eight_bytes(bytes: &[u8]) -> [u8; 8]
    requires { length bytes.now ≡ 8 }
    ensures { result ≡ bytes.now }
{
    let mut all = [0; 8];
    all.copy_from_slice(bytes);
    all
}

/// The value of a primitive type that these bytes spell; null for the type of references.
fn value_of(code: TypeCode, bytes: &[u8]) -> Value
    requires { length bytes.now ≡ width_of code }
    ensures { result ≡ value_of code bytes.now }
{
    match code {
        TypeCode::Byte => Value::Byte(u8::from_be_bytes([bytes[0]])),
        TypeCode::Boolean => Value::Boolean(u8::from_be_bytes([bytes[0]]) != 0),
        TypeCode::Char => Value::Char(u16::from_be_bytes(two_bytes(bytes))),
        TypeCode::Short => Value::Short(i16::from_be_bytes(two_bytes(bytes))),
        TypeCode::Float => Value::Float(u32::from_be_bytes(four_bytes(bytes))),
        TypeCode::Int => Value::Int(i32::from_be_bytes(four_bytes(bytes))),
        TypeCode::Double => Value::Double(u64::from_be_bytes(eight_bytes(bytes))),
        TypeCode::Long => Value::Long(i64::from_be_bytes(eight_bytes(bytes))),
        TypeCode::Array | TypeCode::Object => Value::Ref(Slot::Null),
    }
}

/// The argument that comes next, for a parameter of a type whose values take so many bytes.
fn read_prim<S: Source>(
    alloc: Global,
    pull: &mut Pull<'_, S>,
    reader: &mut Reader,
    code: TypeCode,
    n: u32,
) -> Result<Arg, StreamFault>
    requires wanted { want_of code ≡ wanted.Bytes n }
    requires kept { reader.old.refused ≡ None }
    ensures kept { OnOk result (reader.new.refused ≡ None) }
    ensures lent { pull.new.source.ghost_name ≡ pull.old.source.ghost_name }
    ensures reads { IfOk result
        (ReadsArgument (pull_state S.half pull.old) (pull_state S.half pull.new) reader.old.stand
        reader.new.stand code) }
    ensures stops { WantStopsTaken S.half pull.old pull.new result
        (λ end. want_at end (want_of code) reader.old.stand) }
{
    let mut all = [0; WIDEST];
    let bytes = &mut all[..n as usize];
    reader.bytes_into(alloc, pull, bytes)?;
    Ok(Arg::Prim(value_of(code, bytes)))
}

/// The argument that comes next, for a parameter of this type.
pub(crate) fn read_arg<S: Source>(
    alloc: Global,
    pull: &mut Pull<'_, S>,
    reader: &mut Reader,
    code: TypeCode,
) -> Result<Arg, StreamFault>
    requires kept { reader.old.refused ≡ None }
    ensures kept { OnOk result (reader.new.refused ≡ None) }
    ensures lent { pull.new.source.ghost_name ≡ pull.old.source.ghost_name }
    ensures reads { IfOk result
        (ReadsArgument (pull_state S.half pull.old) (pull_state S.half pull.new) reader.old.stand
        reader.new.stand code) }
    ensures stops { WantStopsTaken S.half pull.old pull.new result
        (λ end. want_at end (want_of code) reader.old.stand) }
{
    match want_of(code) {
        Want::Bytes(n) => read_prim(alloc, pull, reader, code, n),
        Want::Slot => {
            let slot = reader.slot(alloc, pull)?;
            Ok(Arg::Ref(slot))
        }
    }
}

/// Takes the arguments that come next, for parameters of these types, into an empty list.
fn read_onto<S: Source>(
    alloc: Global,
    pull: &mut Pull<'_, S>,
    reader: &mut Reader,
    params: &[TypeCode],
    args: &mut ArgList,
) -> Result<(), StreamFault>
    requires kept { reader.old.refused ≡ None }
    requires empty { args.old ≡ [] }
    ensures kept { OnOk result (reader.new.refused ≡ None) }
    ensures lent { pull.new.source.ghost_name ≡ pull.old.source.ghost_name }
    ensures reads { OnOk result
        (ReadsEach (pull_state S.half pull.old) (pull_state S.half pull.new) reader.old.stand
        reader.new.stand params.now args.new) }
    ensures stops { WantStopsTaken S.half pull.old pull.new result
        (λ end. serve end (wants_of params.now) reader.old.stand) }
{
    args.reserve(params.len())?;
    for code in params {
        let arg = read_arg(alloc, pull, reader, *code)?;
        args.push(arg)?;
    }
    Ok(())
}

/// A call's graph less the bytes of its head.
fn without_head(alloc: Global, whole: Graph) -> Graph
    requires { is_some (without_front 34 whole.items) ≡ true }
    ensures nodes { result.nodes ≡ whole.nodes }
    ensures items { without_front 34 whole.items ≡ Some result.items }
{
    match whole.without_front(alloc, HEAD_BYTES) {
        Some(graph) => graph,
        None => unreachable!(),
    }
}

/// Reads the arguments for parameters of these types into an empty list, up to their end, and gives the graph in which their references stand.
#[tactic(auto, unfolding(ser_read::specs::Wants::serve_to_close))]
fn read_graph<S: Source>(
    alloc: Global,
    pull: &mut Pull<'_, S>,
    reader: Reader,
    params: &[TypeCode],
    args: &mut ArgList,
) -> Result<Graph, StreamFault>
    requires ready { HasHead reader }
    requires empty { args.old ≡ [] }
    ensures lent { pull.new.source.ghost_name ≡ pull.old.source.ghost_name }
    ensures reads { IfOk result (λ graph. ReadsArguments (pull_state S.half pull.old)
        (pull_state S.half pull.new) reader.stand params.now
        (record { graph = graph; values = args.new })) }
    ensures stops { WantStopsTaken S.half pull.old pull.new result
        (λ end. serve_to_close end (wants_of params.now) reader.stand) }
{
    let mut reader = reader;
    read_onto(alloc, pull, &mut reader, params, args)?;
    let whole = reader.close(pull)?;
    Ok(without_head(alloc, whole))
}

/// Reads the arguments for parameters of these types.
fn read_values<S: Source>(
    alloc: Global,
    pull: &mut Pull<'_, S>,
    reader: Reader,
    params: &[TypeCode],
) -> Result<Arguments, StreamFault>
    requires ready { HasHead reader }
    ensures lent { pull.new.source.ghost_name ≡ pull.old.source.ghost_name }
    ensures reads { IfOk result (λ arguments. ReadsArguments (pull_state S.half pull.old)
        (pull_state S.half pull.new) reader.stand params.now arguments) }
    ensures stops { WantStopsTaken S.half pull.old pull.new result
        (λ end. serve_to_close end (wants_of params.now) reader.stand) }
{
    let mut values = ArgList::new(alloc);
    let graph = read_graph(alloc, pull, reader, params, &mut values)?;
    Ok(Arguments { graph, values })
}

/// Reads the arguments of a call for parameters of these types, up to their end. The reader is the one that stands behind the call's head.
///
/// Each fault comes as at [`Reader::bytes`] and [`Reader::slot`], and `BlockLeft` where bytes of a block are left behind the arguments.
pub fn read_parameters<S: Source>(
    alloc: Global,
    pull: &mut Pull<'_, S>,
    reader: Reader,
    params: &[TypeCode],
) -> Result<Arguments, FrameFault>
    requires ready { HasHead reader }
    ensures reads { IfOk result (λ arguments. ReadsArguments (pull_state S.half pull.old)
        (pull_state S.half pull.new) reader.stand params.now arguments) }
    ensures call { (before : PullState) (head : CallHead)
        → ReadsHead before (pull_state S.half pull.old) head reader.stand
        → IfOk result
        (λ arguments. TakesCall before (pull_state S.half pull.new) head params.now arguments) }
    ensures stops { IfErr result (λ fault. BreaksIn (pull_state S.half pull.old)
        (pull_state S.half pull.new) fault
        (λ end. serve_to_close end (wants_of params.now) reader.stand)) }
    ensures cut { (before : PullState) (head : CallHead)
        → ReadsHead before (pull_state S.half pull.old) head reader.stand
        → IfErr result (λ fault. BreaksIn before (pull_state S.half pull.new) fault
        (λ end. wants_at end (wanted.Bytes 34 ∷ wants_of params.now))) }
    ensures cause { CausedIn (S.half pull.old.source.now).faults (S.half pull.new.source.now).faults
        result }
    ensures lent { pull.new.source.ghost_name ≡ pull.old.source.ghost_name }
{
    match read_values(alloc, pull, reader, params) {
        Ok(arguments) => Ok(arguments),
        Err(fault) => Err(FrameFault::Stream(fault)),
    }
}

/// Reads the arguments of a call, as [`read_parameters`] does for the types of its method's parameters.
pub fn read_arguments<S: Source>(
    alloc: Global,
    pull: &mut Pull<'_, S>,
    reader: Reader,
    method: &Method,
) -> Result<Arguments, FrameFault>
    requires ready { HasHead reader }
    ensures reads { IfOk result (λ arguments. ReadsArguments (pull_state S.half pull.old)
        (pull_state S.half pull.new) reader.stand method.now.params arguments) }
    ensures call { (before : PullState) (head : CallHead)
        → ReadsHead before (pull_state S.half pull.old) head reader.stand
        → IfOk result (λ arguments.
        TakesCall before (pull_state S.half pull.new) head method.now.params arguments) }
    ensures stops { IfErr result (λ fault. BreaksIn (pull_state S.half pull.old)
        (pull_state S.half pull.new) fault
        (λ end. serve_to_close end (wants_of method.now.params) reader.stand)) }
    ensures cut { (before : PullState) (head : CallHead)
        → ReadsHead before (pull_state S.half pull.old) head reader.stand
        → IfErr result (λ fault. BreaksIn before (pull_state S.half pull.new) fault
        (λ end. wants_at end (wanted.Bytes 34 ∷ wants_of method.now.params))) }
    ensures cause { CausedIn (S.half pull.old.source.now).faults (S.half pull.new.source.now).faults
        result }
    ensures lent { pull.new.source.ghost_name ≡ pull.old.source.ghost_name }
{
    read_parameters(alloc, pull, reader, method.params.as_slice())
}

//! Calls and returns as they are written.
ghost use Rattle.std.specs.Prelude.{◌≡◌, ◌<◌, List, ◌++◌, length, IfOk, OnOk};
ghost use Rattle.class_desc.specs.declared.field.TypeCode.{TypeCode};
ghost use Rattle.class_desc.specs.declared.slot.Item.{Item};
ghost use Rattle.stream_grammar.specs.Spelled.{joined};
ghost use Rattle.ser_values.specs.Fronts.{put_block};
ghost use Rattle.ser_write.specs.Canonical.{blocks, contents, value_bytes, SpellFully};
ghost use Rattle.stream_grammar.specs.Faults.{AreBytes};
ghost use Rattle.ser_read.specs.SpelledWants.{Fits};
ghost use Rattle.jrmp_frames.specs.Messages.{wants_of, args_of, items_of, nodes_of, return_front, call_message, return_message, CallBytes, ReturnBytes};

use crate::head::CallHead;
use object_ids::{Uid, uid_bytes};
use sequence::ByteList;
use ser_values::{Graph, Value};
use ser_write::{put_primitive, write_blocks_onto, write_items_after};
use std::alloc::{AllocError, Global};

/// The number of bytes for which a new return has room. Most returns have no more.
const RETURN_ROOM: usize = 1024;

/// The number of bytes of room for the beginning of a return with a value behind it. The two never take more.
const VALUE_ROOM: usize = 32;

/// The contents of a return.
#[derive(Debug)]
pub enum Body {
    /// Nothing: the method has no result.
    Void,
    /// A number, a character or a truth value.
    Prim(Value),
    /// A reference, as the graph whose one item it is: a result, or an exception.
    Tree(Graph),
}

// Written out, so that whoever owns one has one call at each exit, and not the drop of each variant.
impl Drop for Body {
    fn drop(self) {
        match self {
            Body::Void => {}
            Body::Prim(_) => {}
            Body::Tree(graph) => drop(graph),
        }
    }
}

/// The bytes of a call: the code `50`, and a stream of the head and the arguments. The arguments' graph has them alone as its items.
/// It is refused only for want of memory.
pub fn call_bytes(alloc: Global, head: CallHead, arguments: &Graph) -> Result<ByteList, AllocError>
    ensures written { IfOk result (λ bytes. bytes ≡ call_message head arguments.now) }
    ensures spelled { IfOk result (λ bytes. (params : List TypeCode) (answers : List Item)
        → Fits (wants_of params) answers → arguments.now.items ≡ joined answers
        → ∥ CallBytes head params
        (record { graph = arguments.now; values = args_of params answers }) bytes ∥₁) }
{
    let mut out = ByteList::from_slice(alloc, &[0x50, 0xAC, 0xED, 0x00, 0x05])?;
    write_items_after(alloc, &mut out, &head.to_bytes(), arguments)?;
    look_at(out.as_slice());
    Ok(out)
}

/// Each is a number of 8 bits. It does nothing.
fn look_at(bytes: &[u8])
    ensures { AreBytes bytes.now }
{}

/// Returns the bytes with which a return begins: `01` for a result or `02` for an exception, and an identifier.
#[tactic(auto, unfolding(crate::specs::Messages::return_front))]
fn return_front(normal: bool, uid: Uid) -> [u8; 15]
    ensures { result ≡ return_front normal uid }
{
    let mut front = [0; 15];
    front[0] = if normal { 1 } else { 2 };
    front[1..].copy_from_slice(&uid_bytes(uid));
    front
}

/// Appends bytes and those of a value as block data.
fn put_value(
    alloc: Global,
    out: &mut ByteList,
    front: &[u8],
    value: Value,
) -> Result<(), AllocError>
    ensures { OnOk result (out.new ≡ out.old ++ blocks (front.now ++ value_bytes value)) }
{
    let mut run = ByteList::new(alloc);
    run.reserve(VALUE_ROOM)?;
    run.append(front)?;
    put_primitive(&mut run, value)?;
    write_blocks_onto(out, run.as_slice())
}

/// Appends what a return begins with and its body, as the contents of a stream.
fn put_body(alloc: Global, out: &mut ByteList, front: &[u8], body: &Body) -> Result<(), AllocError>
    requires { 0 < length front.now }
    ensures written { OnOk result
        (out.new
        ≡ out.old ++ contents (nodes_of body.now) (put_block front.now (items_of body.now))) }
    ensures spelled { OnOk result
        (∥ SpellFully (nodes_of body.now) (put_block front.now (items_of body.now))
        (contents (nodes_of body.now) (put_block front.now (items_of body.now))) ∥₁) }
{
    match body {
        Body::Void => write_blocks_onto(out, front),
        Body::Prim(value) => put_value(alloc, out, front, *value),
        Body::Tree(graph) => write_items_after(alloc, out, front, graph),
    }
}

/// The bytes of a return: the code `51`, and a stream of the byte that tells a result from an exception, the return's identifier, and the
/// body. It is refused only for want of memory.
pub fn return_bytes(
    alloc: Global,
    normal: bool,
    uid: Uid,
    body: &Body,
) -> Result<ByteList, AllocError>
    ensures written { IfOk result (λ bytes. bytes ≡ return_message normal uid body.now) }
    ensures spelled { IfOk result (λ bytes. ∥ ReturnBytes normal uid body.now bytes ∥₁) }
{
    let mut out = ByteList::new(alloc);
    out.reserve(RETURN_ROOM)?;
    out.append(&[0x51, 0xAC, 0xED, 0x00, 0x05])?;
    put_body(alloc, &mut out, &return_front(normal, uid), body)?;
    look_at(out.as_slice());
    Ok(out)
}

//! The lines of a graph.
ghost use Rattle.std.specs.Prelude.{◌≡◌, ◌<◌, ◌^◌, ◌++◌, length, flat_map, OnOk, IfOk};
ghost use Rattle.graph_text.specs.GraphText.{part_text, tail_text, suid_text, class_text, node_text, node_line, node_lines, item_line, graph_text};

use crate::words::{Shown, put_listed, put_node_name};
use class_desc::{ClassDesc, Item, ProxyDesc, Slot};
use journal::put::{put_decimal, put_hex};
use sequence::ByteList;
use ser_values::{Graph, Node, Part, Values};
use std::alloc::{AllocError, Global};

/// The text of a graph: a line for each node by rising number, then a line for each item. It is refused only for want of memory.
///
/// | node | line |
/// |---|---|
/// | string | `#N text "T"` |
/// | class description | `#N desc "NAME" UID FLAGS FIELDS note NOTE super SLOT`, with fields as `I:"name"` or `L:"name":#T` |
/// | proxy class description | `#N proxy "A","B" note NOTE super SLOT` |
/// | object | `#N object #C`, and for each class of its chain ` (VALUES NOTE)` |
/// | array | `#N array #C COUNT VALUES` |
/// | class, constant of an enum | `#N class #C`, `#N enum #C #T` |
///
/// Lists are joined by commas, and `-` where they are empty. A note's items and the lines `item X` are references, `null` or `#N`, or
/// bytes as `x:` and hexadecimal digits; floats and doubles are their bits so.
#[tactic(auto, unfolding(crate::specs::GraphText::graph_text))]
pub fn graph_text(alloc: Global, graph: &Graph) -> Result<ByteList, AllocError>
    ensures { IfOk result (λ text. text ≡ graph_text graph.now.nodes graph.now.items) }
{
    let mut out = ByteList::new(alloc);
    let _count = graph.count();
    put_nodes(&mut out, graph.nodes().as_slice())?;
    put_items(&mut out, graph.items().as_slice())?;
    Ok(out)
}

/// Appends the lines of nodes, the first of which has the number 0.
#[tactic(auto, unfolding(crate::specs::GraphText::node_lines))]
fn put_nodes(out: &mut ByteList, nodes: &[Node]) -> Result<(), AllocError>
    requires { length nodes.now < 2 ^ 32 }
    ensures { OnOk result (out.new ≡ out.old ++ node_lines 0 nodes.now) }
{
    for (number, node) in nodes.iter().enumerate() {
        put_node_line(out, number as u32, node)?;
    }
    Ok(())
}

/// Appends the lines of items.
fn put_items(out: &mut ByteList, items: &[Item]) -> Result<(), AllocError>
    ensures { OnOk result (out.new ≡ out.old ++ flat_map item_line items.now) }
{
    for item in items {
        put_item_line(out, item)?;
    }
    Ok(())
}

/// Appends the line of an item.
fn put_item_line(out: &mut ByteList, item: &Item) -> Result<(), AllocError>
    ensures { OnOk result (out.new ≡ out.old ++ item_line item.now) }
{
    out.append(b"item ")?;
    item.put(out)?;
    out.push(b'\n')
}

/// Appends the line of a node.
fn put_node_line(out: &mut ByteList, number: u32, node: &Node) -> Result<(), AllocError>
    ensures { OnOk result (out.new ≡ out.old ++ node_line number node.now) }
{
    put_node_name(out, number)?;
    put_node(out, node)?;
    out.push(b'\n')
}

/// Appends what stands in a node's line after its name.
fn put_node(out: &mut ByteList, node: &Node) -> Result<(), AllocError>
    ensures { OnOk result (out.new ≡ out.old ++ node_text node.now) }
{
    match node {
        Node::Text(text) => {
            out.append(b" text ")?;
            text.put(out)
        }
        Node::Desc(desc) => put_desc(out, desc),
        Node::Proxy(proxy) => put_proxy(out, proxy),
        Node::Object { class, parts } => {
            out.append(b" object ")?;
            put_node_name(out, *class)?;
            put_parts(out, parts.as_slice())
        }
        Node::Array { class, values } => put_array(out, *class, values),
        Node::Class { class } => {
            out.append(b" class ")?;
            put_node_name(out, *class)
        }
        Node::Enum { class, name } => {
            out.append(b" enum ")?;
            put_node_name(out, *class)?;
            out.push(b' ')?;
            put_node_name(out, *name)
        }
    }
}

/// Appends what stands in the line of a class description.
fn put_desc(out: &mut ByteList, desc: &ClassDesc) -> Result<(), AllocError>
    ensures { OnOk result (out.new ≡ out.old ++ node_text (Node.Desc desc.now)) }
{
    out.append(b" desc ")?;
    put_class(out, desc)?;
    out.push(b' ')?;
    put_listed(out, desc.fields.as_slice())?;
    put_tail(out, desc.note.as_slice(), desc.parent)
}

/// Appends the name, the serialVersionUID and the flags of a class description.
fn put_class(out: &mut ByteList, desc: &ClassDesc) -> Result<(), AllocError>
    ensures { OnOk result (out.new ≡ out.old ++ class_text desc.now) }
{
    desc.name.put(out)?;
    out.push(b' ')?;
    put_suid(out, &desc.suid)?;
    out.push(b' ')?;
    put_hex(out, &[desc.flags])
}

/// Appends a serialVersionUID as 16 hexadecimal digits.
#[tactic(auto, unfolding(crate::specs::GraphText::suid_text))]
fn put_suid(out: &mut ByteList, suid: &i64) -> Result<(), AllocError>
    ensures { OnOk result (out.new ≡ out.old ++ suid_text suid.now) }
{
    put_hex(out, &suid.to_be_bytes())
}

/// Appends what stands in the line of a proxy class description.
fn put_proxy(out: &mut ByteList, proxy: &ProxyDesc) -> Result<(), AllocError>
    ensures { OnOk result (out.new ≡ out.old ++ node_text (Node.Proxy proxy.now)) }
{
    out.append(b" proxy ")?;
    put_listed(out, proxy.names.as_slice())?;
    put_tail(out, proxy.note.as_slice(), proxy.parent)
}

/// Appends what stands in the line of an array.
fn put_array(out: &mut ByteList, class: u32, values: &Values) -> Result<(), AllocError>
    ensures { OnOk result (out.new ≡ out.old ++ node_text (Node.Array class values.now)) }
{
    out.append(b" array ")?;
    put_node_name(out, class)?;
    out.push(b' ')?;
    put_decimal(out, values.len() as u64)?;
    out.push(b' ')?;
    values.put(out)
}

/// Appends the note and the superclass of a description.
fn put_tail(out: &mut ByteList, note: &[Item], parent: Slot) -> Result<(), AllocError>
    ensures { OnOk result (out.new ≡ out.old ++ tail_text note.now parent) }
{
    out.append(b" note ")?;
    put_listed(out, note)?;
    out.append(b" super ")?;
    parent.put(out)
}

/// Appends the parts of an object.
fn put_parts(out: &mut ByteList, parts: &[Part]) -> Result<(), AllocError>
    ensures { OnOk result (out.new ≡ out.old ++ flat_map part_text parts.now) }
{
    for part in parts {
        put_part(out, part)?;
    }
    Ok(())
}

/// Appends a part of an object.
fn put_part(out: &mut ByteList, part: &Part) -> Result<(), AllocError>
    ensures { OnOk result (out.new ≡ out.old ++ part_text part.now) }
{
    out.append(b" (")?;
    put_listed(out, part.values.as_slice())?;
    out.push(b' ')?;
    put_listed(out, part.note.as_slice())?;
    out.push(b')')
}

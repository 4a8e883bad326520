//! The graph that is measured: a class with one field of its own type, a byte array, and objects, each of which holds the
//! node before it.
ghost use Rattle.std.specs.Prelude.{◌≡◌, ◌++◌, ◌∷◌, ◌-◌, IfOk, OnOk};
ghost use Rattle.ser_values.specs.declared.node.Node.TheVariants as nodes;
ghost use Rattle.class_desc.specs.declared.slot.Slot.TheVariants as slots;
ghost use Rattle.class_desc.specs.declared.slot.Item.TheVariants as contents;
ghost use Rattle.bench_parts.specs.Sample.{fixed_nodes, node_class, array_class, objects, object_after, items_after};

use crate::sizes::Sizes;
use class_desc::{ClassDesc, FieldDesc, FieldList, Item, Items, SERIALIZABLE, Slot, TypeCode};
use sequence::{ByteList, Units};
use ser_values::{BuildFault, Builder, Part, PartList, Value, ValueList, Values};
use std::alloc::{AllocError, Global};

/// The number of nodes before the objects.
const FIXED: u32 = 4;

/// The description of the class `Node`, whose one field is a `Node`.
fn node_class(alloc: Global) -> Result<ClassDesc, AllocError>
    ensures { IfOk result (λ desc. desc ≡ node_class) }
{
    let mut fields = FieldList::new(alloc);
    fields.push(FieldDesc {
        code: TypeCode::Object,
        name: Units::from_slice(alloc, &[0x6E, 0x65, 0x78, 0x74])?,
        type_text: Slot::Node(1),
    })?;
    Ok(ClassDesc {
        name: Units::from_slice(alloc, &[0x4E, 0x6F, 0x64, 0x65])?,
        suid: 1,
        flags: SERIALIZABLE,
        fields,
        note: Items::new(alloc),
        parent: Slot::Null,
    })
}

/// The description of the class of byte arrays.
fn array_class(alloc: Global) -> Result<ClassDesc, AllocError>
    ensures { IfOk result (λ desc. desc ≡ array_class) }
{
    Ok(ClassDesc {
        name: Units::from_slice(alloc, &[0x5B, 0x42])?,
        suid: 1,
        flags: SERIALIZABLE,
        fields: FieldList::new(alloc),
        note: Items::new(alloc),
        parent: Slot::Null,
    })
}

/// The nodes that stand before the objects: the class, the type text of its field, and a byte array of zeros with its
/// class.
fn fixed_nodes(alloc: Global, bytes: u32) -> Result<Builder, BuildFault>
    ensures { IfOk result (λ builder. builder ≡ fixed_nodes bytes) }
{
    let mut builder = Builder::new(alloc);
    builder.desc(node_class(alloc)?)?;
    builder.text(Units::from_slice(alloc, &[0x4C, 0x4E, 0x6F, 0x64, 0x65, 0x3B])?)?;
    builder.desc(array_class(alloc)?)?;
    let zeros = ByteList::from_vec(vec![in alloc; 0; bytes as usize]?);
    builder.array(Slot::Node(2), Values::Bytes(zeros))?;
    Ok(builder)
}

/// The part of an object that holds a node.
fn part_of(alloc: Global, held: u32) -> Result<PartList, AllocError>
    ensures { IfOk result (λ parts. nodes.Object 0 parts ≡ object_after held) }
{
    let mut parts = PartList::new(alloc);
    parts.push(Part {
        values: ValueList::from_slice(alloc, &[Value::Ref(Slot::Node(held))])?,
        note: Items::new(alloc),
    })?;
    Ok(parts)
}

/// Adds the objects of a graph of so many nodes.
#[tactic(auto, unfolding(crate::specs::Sample::objects))]
fn put_objects(alloc: Global, builder: &mut Builder, nodes: u32) -> Result<(), BuildFault>
    ensures { OnOk result (builder.new ≡ builder.old ++ objects (nodes - 4)) }
{
    for i in 0..nodes.saturating_sub(FIXED) {
        builder.object(Slot::Node(0), part_of(alloc, i + 3)?)?;
    }
    Ok(())
}

/// The loose nodes of a graph of these sizes, and at least the four before the objects.
pub fn sample_nodes(alloc: Global, sizes: Sizes) -> Result<Builder, BuildFault>
    ensures { IfOk result
        (λ builder. builder ≡ fixed_nodes sizes.bytes ++ objects (sizes.nodes - 4)) }
{
    let mut builder = fixed_nodes(alloc, sizes.bytes)?;
    put_objects(alloc, &mut builder, sizes.nodes)?;
    Ok(builder)
}

/// The items of a graph of so many nodes: the byte array, and the objects.
#[tactic(auto, unfolding(crate::specs::Sample::items_after))]
pub fn sample_items(alloc: Global, nodes: u32) -> Result<Items, AllocError>
    ensures { IfOk result (λ items. items ≡ contents.Ref (slots.Node 3) ∷ items_after (nodes - 4)) }
{
    let mut items = Items::new(alloc);
    items.push(Item::Ref(Slot::Node(3)))?;
    for i in 0..nodes.saturating_sub(FIXED) {
        items.push(Item::Ref(Slot::Node(FIXED + i)))?;
    }
    Ok(items)
}

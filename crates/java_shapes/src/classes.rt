//! Descriptions of Java's own classes among the loose nodes of a builder.
ghost use Rattle.std.specs.Prelude.{◌≡◌, ◌+◌, false, length, IfOk, Some, map};
ghost use Rattle.std.specs.List.{zip};
ghost use Rattle.class_desc.specs.KnownClass.{parts_of};
ghost use Rattle.ser_values.specs.declared.node.Node.TheVariants as nodes;
ghost use Rattle.ser_values.specs.Builder.{number_of};
ghost use Rattle.java_shapes.specs.Objects.{node_at, text_at};
ghost use Rattle.java_shapes.specs.Put.{IsClassAt, NamesText, NamesType, NameTypes, Puts, desc_with, field_with, no_codebase};

use crate::class_part::copy_text;
use class_desc::{
    ClassDesc, FieldDesc, FieldList, Item, Items, KnownClass, PartField, Slot, SlotList,
    is_primitive, known,
};
use sequence::Units;
use ser_values::{BuildFault, Builder, PartList, Values};
use std::alloc::{AllocError, Global};

/// A known class's field with the node of its type text.
fn field_with(alloc: Global, field: &PartField, text: Slot) -> Result<FieldDesc, AllocError>
    ensures { IfOk result (λ desc. desc ≡ field_with field.now text) }
{
    Ok(FieldDesc {
        code: field.code,
        name: copy_text(alloc, &field.name)?,
        type_text: text,
    })
}

/// A known class's fields with the nodes of their type texts.
fn fields_with(alloc: Global, fields: &[PartField], texts: &[Slot]) -> Result<FieldList, AllocError>
    ensures { IfOk result (λ list. list ≡ map (λ p. field_with p.0 p.1)
        (zip fields.now texts.now)) }
{
    let mut list = FieldList::new(alloc);
    let count = fields.len().min(texts.len());
    let mut at = 0;
    while at < count {
        list.push(field_with(alloc, &fields[at], texts[at])?)?;
        at += 1;
    }
    Ok(list)
}

/// The annotation of a class where no codebase is given.
pub(crate) fn no_codebase(alloc: Global) -> Result<Items, AllocError>
    ensures { IfOk result (λ note. note ≡ no_codebase) }
{
    let mut note = Items::new(alloc);
    note.push(Item::Ref(Slot::Null))?;
    Ok(note)
}

/// The description of a known class, with the nodes of its fields' type texts and its superclass.
pub(crate) fn desc_of(
    alloc: Global,
    which: KnownClass,
    texts: &[Slot],
    parent: Slot,
) -> Result<ClassDesc, AllocError>
    ensures { IfOk result (λ desc. desc ≡ desc_with (parts_of which) texts.now parent) }
{
    let parts = known(alloc, which)?;
    Ok(ClassDesc {
        name: parts.name,
        suid: parts.suid,
        flags: parts.flags,
        fields: fields_with(alloc, parts.fields.as_slice(), texts)?,
        note: no_codebase(alloc)?,
        parent,
    })
}

/// Puts a text.
pub(crate) fn put_text(b: &mut Builder, text: Units) -> Result<Slot, BuildFault>
    ensures { Puts 1 (λ nodes s. text_at nodes s ≡ Some text) b.old b.new result }
{
    b.text(text)
}

/// Puts an object.
pub(crate) fn put_object(b: &mut Builder, class: Slot, parts: PartList) -> Result<Slot, BuildFault>
    ensures { Puts 1 (λ loose s. node_at loose s ≡ Some (nodes.Object (number_of class) parts))
        b.old b.new result }
{
    b.object(class, parts)
}

/// Puts an array.
pub(crate) fn put_array(b: &mut Builder, class: Slot, values: Values) -> Result<Slot, BuildFault>
    ensures { Puts 1 (λ loose s. node_at loose s ≡ Some (nodes.Array (number_of class) values))
        b.old b.new result }
{
    b.array(class, values)
}

/// Puts a description.
fn put_desc(b: &mut Builder, desc: ClassDesc) -> Result<Slot, BuildFault>
    ensures { Puts 1 (λ loose s. node_at loose s ≡ Some (nodes.Desc desc)) b.old b.new result }
{
    b.desc(desc)
}

/// Puts a text, unless there is an equal one.
fn put_shared(b: &mut Builder, text: Units) -> Result<Slot, BuildFault>
    ensures { Puts 1 (λ nodes s. NamesText false nodes text s) b.old b.new result }
{
    b.share_text(text)
}

/// Puts the type text of a field.
fn put_type(alloc: Global, b: &mut Builder, field: &PartField) -> Result<Slot, BuildFault>
    ensures { Puts 1 (λ nodes s. NamesType nodes field.now s) b.old b.new result }
{
    if is_primitive(field.code) {
        return Ok(Slot::Null);
    }
    let text = copy_text(alloc, &field.type_text)?;
    put_shared(b, text)
}

/// Puts the type texts of fields.
fn put_types(alloc: Global, b: &mut Builder, fields: &[PartField]) -> Result<SlotList, BuildFault>
    ensures { Puts (length fields.now) (λ nodes slots. NameTypes nodes fields.now slots) b.old b.new
        result }
{
    let mut texts = SlotList::new(alloc);
    for field in fields {
        texts.push(put_type(alloc, b, field)?)?;
    }
    Ok(texts)
}

/// Puts the description of a known class with this superclass.
pub(crate) fn put_class(
    alloc: Global,
    b: &mut Builder,
    which: KnownClass,
    parent: Slot,
) -> Result<Slot, BuildFault>
    ensures { Puts (length (parts_of which).fields + 1) (λ nodes s. IsClassAt nodes which parent s)
        b.old b.new result }
{
    let parts = known(alloc, which)?;
    let texts = put_types(alloc, b, parts.fields.as_slice())?;
    let desc = desc_of(alloc, which, texts.as_slice(), parent)?;
    put_desc(b, desc)
}

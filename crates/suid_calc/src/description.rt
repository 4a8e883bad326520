//! The description of an outline's class.
ghost use Rattle.std.specs.Prelude.{◌≡◌, ◌++◌, ◌≤◌, length, map, filter, IfOk, IfErr, OnOk};
ghost use Rattle.ser_values.specs.declared.node.Node.TheVariants as loose;
ghost use Rattle.suid_calc.specs.declared.description.DescribeFault.TheVariants.{OutOfMemory};
ghost use Rattle.suid_calc.specs.Description.{is_serial, type_of, code_in, is_primitive_field, is_reference_field, with_type, texts_of, texts_in, place_in, slot_in, field_of, desc_with, nodes_with, nodes_of, items_of, one_item, count_of, IsChecked, IsUndescribed};

use crate::outline::{ClassOutline, Member};
use crate::parse::name_of;
use crate::text::{has_bit, suid};
use class_desc::{
    ClassDesc, FieldDesc, FieldList, Item, Items, SERIALIZABLE, Slot, TypeCode, is_primitive,
};
use indexmap::IndexSet;
use mod_utf::utf::units_of_ascii;
use ser_values::{Graph, Node, NodeList};
use std::alloc::{AllocError, Global};
use thiserror::Error;

/// The greatest number of fields of a class description: its count is 16 bits with a sign.
pub const MAX_FIELDS: usize = 32_767;

/// Why a class is not described.
#[derive(Clone, Copy, Debug, PartialEq, Eq, Error)]
pub enum DescribeFault {
    /// More than 32,767 fields are neither static nor transient.
    #[error("too many fields")]
    TooManyFields,
    /// There was no memory.
    #[error("out of memory")]
    OutOfMemory,
}

impl From<AllocError> for DescribeFault {
    ghost from_gives = { λ _ fault. fault ≡ OutOfMemory };

    fn from(_error: AllocError) -> DescribeFault {
        DescribeFault::OutOfMemory
    }
}

/// The type texts of reference fields, each once.
type Texts = IndexSet<Vec<u8>>;

/// Returns whether a member is a field that is neither static nor transient.
fn is_serial(member: &Member) -> bool
    ensures { result ≡ is_serial member.now }
{
    match member {
        Member::Field { modifiers, .. } => !has_bit(*modifiers, 8) && !has_bit(*modifiers, 128),
        _ => false,
    }
}

/// Returns the text of a field's type; an empty one for another member.
fn type_of(member: &Member) -> &[u8]
    ensures { result.now ≡ type_of member.now }
{
    match member {
        Member::Field { type_text, .. } => type_text.as_slice(),
        _ => &[],
    }
}

/// Returns the type that a text names.
fn code_in(text: &[u8]) -> TypeCode
    ensures { result ≡ code_in text.now }
{
    match text {
        [] => TypeCode::Object,
        [first, ..] => match TypeCode::from_letter(*first) {
            Some(code) => code,
            None => TypeCode::Object,
        },
    }
}

/// Returns whether a member is a serialized field of a primitive type.
fn is_primitive_field(member: &Member) -> bool
    ensures { result ≡ is_primitive_field member.now }
{
    is_serial(member) && is_primitive(code_in(type_of(member)))
}

/// Returns whether a member is a serialized field of an array's or a class's type.
fn is_reference_field(member: &Member) -> bool
    ensures { result ≡ is_reference_field member.now }
{
    is_serial(member) && !is_primitive(code_in(type_of(member)))
}

/// Returns how many members are serialized fields.
fn count_fields(members: &[Member]) -> usize
    ensures { result ≡ length (filter is_serial members.now) }
{
    members.iter().filter(|member| is_serial(*member)).count()
}

/// Adds the type text of a reference field, unless it is there.
fn note_text(alloc: Global, texts: &mut Texts, member: &Member) -> Result<(), AllocError>
    ensures { OnOk result
        (texts_in texts.new.keys ≡ with_type (texts_in texts.old.keys) member.now) }
{
    if is_reference_field(member) {
        let text = Vec::from_slice(alloc, type_of(member))?;
        texts.insert(text)?;
    }
    Ok(())
}

/// Returns the type texts of the reference fields among members.
fn texts_of(alloc: Global, members: &[Member]) -> Result<Texts, AllocError>
    ensures { IfOk result (λ texts. texts_in texts.keys ≡ texts_of members.now) }
{
    let mut texts = IndexSet::new(alloc);
    for member in members {
        note_text(alloc, &mut texts, member)?;
    }
    Ok(texts)
}

/// Returns the place of a type's text among the texts; their count where it is none of them.
fn place_of(texts: &Texts, text: &[u8]) -> usize
    ensures place { result ≡ place_in (texts_in texts.now.keys) text.now }
    ensures bound { result ≤ length texts.now.keys }
{
    match texts.get_index_of(text) {
        Some(place) => place,
        None => texts.len(),
    }
}

/// Returns the node of a field's type text.
fn slot_in(texts: &Texts, text: &[u8]) -> Slot
    requires { length texts.now.keys ≤ MAX_FIELDS }
    ensures { result ≡ slot_in (texts_in texts.now.keys) text.now }
{
    if is_primitive(code_in(text)) {
        Slot::Null
    } else {
        Slot::Node(place_of(texts, text) as u32 + 1)
    }
}

/// Returns the description of a field.
fn field_of(alloc: Global, texts: &Texts, member: &Member) -> Result<FieldDesc, AllocError>
    requires { length texts.now.keys ≤ MAX_FIELDS }
    ensures { IfOk result (λ field. field ≡ field_of (texts_in texts.now.keys) member.now) }
{
    let text = type_of(member);
    Ok(FieldDesc {
        code: code_in(text),
        name: units_of_ascii(alloc, name_of(member))?,
        type_text: slot_in(texts, text),
    })
}

/// Appends the descriptions of the primitive fields among members.
fn put_primitives(
    alloc: Global,
    fields: &mut FieldList,
    texts: &Texts,
    members: &[Member],
) -> Result<(), AllocError>
    requires { length texts.now.keys ≤ MAX_FIELDS }
    ensures { OnOk result
        (fields.new
        ≡ fields.old
        ++ map (field_of (texts_in texts.now.keys)) (filter is_primitive_field members.now)) }
{
    for member in members {
        if is_primitive_field(member) {
            fields.push(field_of(alloc, texts, member)?)?;
        }
    }
    Ok(())
}

/// Appends the descriptions of the reference fields among members.
fn put_references(
    alloc: Global,
    fields: &mut FieldList,
    texts: &Texts,
    members: &[Member],
) -> Result<(), AllocError>
    requires { length texts.now.keys ≤ MAX_FIELDS }
    ensures { OnOk result
        (fields.new
        ≡ fields.old
        ++ map (field_of (texts_in texts.now.keys)) (filter is_reference_field members.now)) }
{
    for member in members {
        if is_reference_field(member) {
            fields.push(field_of(alloc, texts, member)?)?;
        }
    }
    Ok(())
}

/// Returns items that are one reference.
fn one_item(alloc: Global, slot: Slot) -> Result<Items, AllocError>
    ensures { IfOk result (λ items. items ≡ one_item slot) }
{
    let mut items = Items::new(alloc);
    items.push(Item::Ref(slot))?;
    Ok(items)
}

/// Returns the description of an outline's class.
fn desc_of(alloc: Global, outline: &ClassOutline, texts: &Texts) -> Result<ClassDesc, AllocError>
    requires { length texts.now.keys ≤ MAX_FIELDS }
    ensures { IfOk result (λ desc. desc ≡ desc_with (texts_in texts.now.keys) outline.now) }
{
    let members = outline.members.as_slice();
    let mut fields = FieldList::new(alloc);
    put_primitives(alloc, &mut fields, texts, members)?;
    put_references(alloc, &mut fields, texts, members)?;
    Ok(ClassDesc {
        name: units_of_ascii(alloc, outline.name.as_slice())?,
        suid: suid(alloc, outline)?,
        flags: SERIALIZABLE,
        fields,
        note: one_item(alloc, Slot::Null)?,
        parent: Slot::Null,
    })
}

/// Appends texts as nodes.
fn put_texts(alloc: Global, nodes: &mut NodeList, texts: &[Vec<u8>]) -> Result<(), AllocError>
    ensures { OnOk result (nodes.new ≡ nodes.old ++ map (λ t. loose.Text t) (texts_in texts.now)) }
{
    for text in texts {
        nodes.push(Node::Text(units_of_ascii(alloc, text.as_slice())?))?;
    }
    Ok(())
}

/// Returns the nodes of a description and of the texts that its fields name.
fn nodes_with(alloc: Global, outline: &ClassOutline, texts: &Texts) -> Result<NodeList, AllocError>
    requires { length texts.now.keys ≤ MAX_FIELDS }
    ensures { IfOk result (λ nodes. nodes ≡ nodes_with (texts_in texts.now.keys) outline.now) }
{
    let mut nodes = NodeList::new(alloc);
    nodes.push(Node::Desc(desc_of(alloc, outline, texts)?))?;
    put_texts(alloc, &mut nodes, texts.as_slice())?;
    Ok(nodes)
}

/// Returns the graph whose one item is the description of the outline's class: serializable, with the outline's number, with the
/// null annotation that RMI writes, without superclass. Its fields are those that are neither static nor transient: primitive ones
/// first, and in each group by name. Fields with equal type texts share one. TooManyFields comes exactly where there are more than
/// 32,767 such fields.
pub fn describe(alloc: Global, outline: &ClassOutline) -> Result<Graph, DescribeFault>
    ensures nodes { IfOk result (λ graph. graph.nodes ≡ nodes_of outline.now) }
    ensures items { IfOk result (λ graph. graph.items ≡ items_of) }
    ensures checked { IfOk result (λ _graph. IsChecked outline.now) }
    ensures few { IfOk result (λ _graph. count_of outline.now ≤ MAX_FIELDS) }
    ensures err { IfErr result (IsUndescribed outline.now) }
{
    let members = outline.members.as_slice();
    if count_fields(members) > MAX_FIELDS {
        return Err(DescribeFault::TooManyFields);
    }
    let texts = texts_of(alloc, members)?;
    let nodes = nodes_with(alloc, outline, &texts)?;
    let items = one_item(alloc, Slot::Node(0))?;
    Ok(Graph::from_parts(nodes, items))
}

//! Graphs as scripts of one command a line.
use crate::text::{MEMORY, ascii, bytes_of, cut, decimal, must, number_of, repeated, slot_of};
use class_desc::{
    ClassDesc, FieldDesc, FieldList, Item, Items, ProxyDesc, Slot, SlotList, TypeCode,
};
use sequence::{NameList, Sequence};
use ser_values::{BuildFault, Builder, Graph, Part, PartList, Value, ValueList, Values};
use std::alloc::{AllocError, Global};
use std::process::Abort;

/// An item: `x` and bytes in hex, or a reference.
fn item_of(rt: &impl Abort, alloc: Global, word: &str) -> Item {
    match word.split_once('x') {
        Some((_, notation)) => Item::Bytes(bytes_of(alloc, notation).expect(rt, MEMORY)),
        None => Item::Ref(slot_of(word)),
    }
}

/// Items with commas between them, or `-`.
fn items_of(rt: &impl Abort, alloc: Global, words: &str) -> Items {
    let mut items = Items::new(alloc);
    for word in words.split(',') {
        if word != "-" {
            items.push(item_of(rt, alloc, word)).expect(rt, MEMORY);
        }
    }
    items
}

/// The type that a letter names.
pub fn code_of(letter: &str) -> TypeCode {
    match letter.as_bytes() {
        [letter, ..] => TypeCode::from_letter(*letter).unwrap_or(TypeCode::Object),
        [] => TypeCode::Object,
    }
}

/// A field: its type, its name, and its type text if there is one, with colons between them.
fn field_of(rt: &impl Abort, alloc: Global, word: &str) -> FieldDesc {
    let (code, rest) = cut(word, ':');
    let (name, type_text) = cut(rest, ':');
    FieldDesc {
        code: code_of(code),
        name: ascii(alloc, name).expect(rt, MEMORY),
        type_text: slot_of(type_text),
    }
}

/// Fields with spaces between them.
fn fields_of(rt: &impl Abort, alloc: Global, words: &str) -> FieldList {
    let mut fields = FieldList::new(alloc);
    for word in words.split(' ') {
        if !word.is_empty() {
            fields.push(field_of(rt, alloc, word)).expect(rt, MEMORY);
        }
    }
    fields
}

/// A description: its name, its serialVersionUID and flags in hex, its superclass, its annotation and its fields.
pub fn desc_of(rt: &impl Abort, alloc: Global, words: &str) -> ClassDesc {
    let (name, rest) = cut(words, ' ');
    let (suid, rest) = cut(rest, ' ');
    let (flags, rest) = cut(rest, ' ');
    let (parent, rest) = cut(rest, ' ');
    let (note, fields) = cut(rest, ' ');
    let [.., flags] = number_of(flags.as_bytes()).to_be_bytes();
    ClassDesc {
        name: ascii(alloc, name).expect(rt, MEMORY),
        suid: i64::from_be_bytes(number_of(suid.as_bytes()).to_be_bytes()),
        flags,
        fields: fields_of(rt, alloc, fields),
        note: items_of(rt, alloc, note),
        parent: slot_of(parent),
    }
}

/// Texts with commas between them.
pub fn names_of(rt: &impl Abort, alloc: Global, words: &str) -> NameList {
    let mut names = NameList::new(alloc);
    for word in words.split(',') {
        let name = ascii(alloc, word).expect(rt, MEMORY);
        names.push(name).expect(rt, MEMORY);
    }
    names
}

/// A proxy class: its interfaces, its superclass and its annotation.
fn proxy_of(rt: &impl Abort, alloc: Global, words: &str) -> ProxyDesc {
    let (names, rest) = cut(words, ' ');
    let (parent, note) = cut(rest, ' ');
    ProxyDesc {
        names: names_of(rt, alloc, names),
        note: items_of(rt, alloc, note),
        parent: slot_of(parent),
    }
}

/// A value: its type and its bits in hex, or a reference.
fn value_of(word: &str) -> Value {
    let (kind, digits) = match word.as_bytes() {
        [kind, digits @ ..] => (*kind, digits),
        [] => (b'n', word.as_bytes()),
    };
    let bits = number_of(digits);
    let [.., a, b, c, d] = bits.to_be_bytes();
    match kind {
        b'B' => Value::Byte(d),
        b'C' => Value::Char(u16::from_be_bytes([c, d])),
        b'D' => Value::Double(bits),
        b'F' => Value::Float(u32::from_be_bytes([a, b, c, d])),
        b'I' => Value::Int(i32::from_be_bytes([a, b, c, d])),
        b'J' => Value::Long(i64::from_be_bytes(bits.to_be_bytes())),
        b'S' => Value::Short(i16::from_be_bytes([c, d])),
        b'Z' => Value::Boolean(d == 1),
        _ => Value::Ref(slot_of(word)),
    }
}

/// Values with commas between them, or `-`.
fn values_of(alloc: Global, words: &str) -> Result<ValueList, AllocError> {
    let mut values = ValueList::new(alloc);
    for word in words.split(',') {
        if word != "-" {
            values.push(value_of(word))?;
        }
    }
    Ok(values)
}

/// A part: its values and its annotation, with `/` between them.
fn part_of(rt: &impl Abort, alloc: Global, word: &str) -> Part {
    let (values, note) = cut(word, '/');
    Part {
        values: values_of(alloc, values).expect(rt, MEMORY),
        note: items_of(rt, alloc, note),
    }
}

/// Parts with spaces between them.
fn parts_of(rt: &impl Abort, alloc: Global, words: &str) -> PartList {
    let mut parts = PartList::new(alloc);
    for word in words.split(' ') {
        parts.push(part_of(rt, alloc, word)).expect(rt, MEMORY);
    }
    parts
}

/// References with commas between them, or `-`.
fn slots_of(alloc: Global, words: &str) -> Result<SlotList, AllocError> {
    let mut slots = SlotList::new(alloc);
    for word in words.split(',') {
        if word != "-" {
            slots.push(slot_of(word))?;
        }
    }
    Ok(slots)
}

/// A list of one item or of none.
fn one<T: Copy + Drop>(rt: &impl Abort, alloc: Global, item: T, has_one: bool) -> Sequence<T> {
    repeated(alloc, item, u64::from(has_one)).expect(rt, MEMORY)
}

/// The elements of an array of numbers in 32 bits or fewer: their type, their bits, and whether there is one.
fn small_elements_of(
    rt: &impl Abort,
    alloc: Global,
    kind: u8,
    bits: [u8; 4],
    has_one: bool,
) -> Values {
    let [_, _, c, d] = bits;
    match kind {
        b'C' => Values::Chars(one(rt, alloc, u16::from_be_bytes([c, d]), has_one)),
        b'F' => Values::Floats(one(rt, alloc, u32::from_be_bytes(bits), has_one)),
        b'I' => Values::Ints(one(rt, alloc, i32::from_be_bytes(bits), has_one)),
        b'S' => Values::Shorts(one(rt, alloc, i16::from_be_bytes([c, d]), has_one)),
        _ => Values::Bools(one(rt, alloc, d == 1, has_one)),
    }
}

/// The elements of an array: their type, and after it bytes in hex, or one other element or none; or references.
fn elements_of(rt: &impl Abort, alloc: Global, word: &str) -> Values {
    let (kind, digits) = match word.as_bytes() {
        [kind, digits @ ..] => (*kind, digits),
        [] => (b'n', word.as_bytes()),
    };
    let has_one = !digits.is_empty();
    let bits = number_of(digits);
    let [.., a, b, c, d] = bits.to_be_bytes();
    match kind {
        b'B' => Values::Bytes(bytes_of(alloc, cut(word, 'B').1).expect(rt, MEMORY)),
        b'D' => Values::Doubles(one(rt, alloc, bits, has_one)),
        b'J' => Values::Longs(one(rt, alloc, i64::from_be_bytes(bits.to_be_bytes()), has_one)),
        b'C' | b'F' | b'I' | b'S' | b'Z' => small_elements_of(
            rt,
            alloc,
            kind,
            [a, b, c, d],
            has_one,
        ),
        _ => Values::Refs(slots_of(alloc, word).expect(rt, MEMORY)),
    }
}

/// So many descriptions, each the superclass of the next, all of them items.
fn chain(
    rt: &impl Abort,
    alloc: Global,
    builder: &mut Builder,
    items: &mut Items,
    count: u64,
) -> Slot {
    let mut slot = Slot::Null;
    for _ in 0..count {
        let mut desc = desc_of(rt, alloc, "A 1 02 null -");
        desc.parent = slot;
        slot = builder.desc(desc).expect(rt, "a description");
        items.push(Item::Ref(slot)).expect(rt, MEMORY);
    }
    slot
}

/// So many parts without values and notes.
fn empty_parts(rt: &impl Abort, alloc: Global, count: u64) -> PartList {
    let mut parts = PartList::new(alloc);
    for _ in 0..count {
        let values = ValueList::new(alloc);
        let note = Items::new(alloc);
        parts.push(Part { values, note }).expect(rt, MEMORY);
    }
    parts
}

/// So many objects of a class, each with so many empty parts, all of them items.
fn fill(
    rt: &impl Abort,
    alloc: Global,
    builder: &mut Builder,
    items: &mut Items,
    class: Slot,
    count: u64,
) -> Slot {
    for _ in 0..count {
        let parts = empty_parts(rt, alloc, count);
        let object = builder.object(class, parts).expect(rt, "an object");
        items.push(Item::Ref(object)).expect(rt, MEMORY);
    }
    class
}

/// So many texts after node 0, and an array of class 0 that holds them.
fn row(rt: &impl Abort, alloc: Global, builder: &mut Builder, count: u64) -> Slot {
    let mut slots = SlotList::new(alloc);
    for _ in 0..count {
        let text = ascii(alloc, "a").expect(rt, MEMORY);
        let slot = builder.text(text).expect(rt, "a text");
        slots.push(slot).expect(rt, MEMORY);
    }
    array(rt, builder, slots)
}

/// An array of class 0 of these elements.
fn array(rt: &impl Abort, builder: &mut Builder, slots: SlotList) -> Slot {
    builder
        .array(Slot::Node(0), Values::Refs(slots))
        .expect(rt, "an array")
}

/// So many arrays of class 0, which is node 0, each in the one before; the last one's element is as told.
fn nest(rt: &impl Abort, alloc: Global, builder: &mut Builder, count: u32, last: Slot) -> Slot {
    for number in 1..count {
        let next = SlotList::from_slice(alloc, &[Slot::Node(number + 1)]).expect(rt, MEMORY);
        array(rt, builder, next);
    }
    let last = SlotList::from_slice(alloc, &[last]).expect(rt, MEMORY);
    array(rt, builder, last)
}

/// So many bytes as an item.
fn block(rt: &impl Abort, alloc: Global, items: &mut Items, count: u64) -> Slot {
    let bytes = repeated(alloc, 0x61, count).expect(rt, MEMORY);
    items.push(Item::Bytes(bytes)).expect(rt, MEMORY);
    Slot::Null
}

/// Adds what a command of many nodes or bytes says.
fn add_many(
    rt: &impl Abort,
    alloc: Global,
    builder: &mut Builder,
    items: &mut Items,
    command: &str,
    words: &str,
) -> Slot {
    let (first, second) = cut(words, ' ');
    let count = decimal(first);
    match command {
        "block" => block(rt, alloc, items, count),
        "chain" => chain(rt, alloc, builder, items, count),
        "fill" => fill(rt, alloc, builder, items, slot_of(second), count),
        "row" => row(rt, alloc, builder, count),
        "nest" => {
            let count = u32::try_from(count).unwrap_or(0);
            nest(rt, alloc, builder, count, slot_of(second))
        }
        "item" => {
            items.push(item_of(rt, alloc, words)).expect(rt, MEMORY);
            Slot::Null
        }
        _ => {
            must(rt, command.is_empty(), command);
            Slot::Null
        }
    }
}

/// Sets a reference of a node: the node, its part, the place there, and what it is to refer to.
fn set(builder: &mut Builder, words: &str) -> Result<Slot, BuildFault> {
    let (node, rest) = cut(words, ' ');
    let (part, rest) = cut(rest, ' ');
    let (place, to) = cut(rest, ' ');
    builder.set_ref(
        slot_of(node),
        decimal(part) as usize,
        decimal(place) as usize,
        slot_of(to),
    )?;
    Ok(slot_of(to))
}

/// Adds the node that a command says, or answers that it is none.
fn add(
    rt: &impl Abort,
    alloc: Global,
    builder: &mut Builder,
    command: &str,
    words: &str,
) -> Option<Result<Slot, BuildFault>> {
    let (first, rest) = cut(words, ' ');
    Some(match command {
        "text" => builder.text(ascii(alloc, words).expect(rt, MEMORY)),
        "letters" => builder.text(repeated(alloc, 0x61, decimal(words)).expect(rt, MEMORY)),
        "share" => builder.share_text(ascii(alloc, words).expect(rt, MEMORY)),
        "desc" => builder.desc(desc_of(rt, alloc, words)),
        "proxy" => builder.proxy(proxy_of(rt, alloc, words)),
        "object" => builder.object(slot_of(first), parts_of(rt, alloc, rest)),
        "array" => builder.array(slot_of(first), elements_of(rt, alloc, rest)),
        "class" => builder.class_of(slot_of(words)),
        "enum" => builder.enumerated(slot_of(first), slot_of(rest)),
        "set" => set(builder, words),
        _ => return None,
    })
}

/// Returns whether a command answered these words: a reference, or why it was refused. With no words any node is right.
fn is_answered(answer: Result<Slot, BuildFault>, words: &str) -> bool {
    match answer {
        Ok(slot) => words.is_empty() || words != "null" && slot == slot_of(words),
        Err(BuildFault::WrongShape) => words == "wrong shape",
        Err(BuildFault::TooManyNodes) => words == "too many nodes",
        Err(_) => false,
    }
}

/// The graph of a script, or why its nodes are none. Before a command may stand what it must answer, with ` ! ` between them.
pub fn graph_of(rt: &impl Abort, alloc: Global, script: &str) -> Result<Graph, BuildFault> {
    let mut builder = Builder::new(alloc);
    let mut items = Items::new(alloc);
    for line in script.trim().split('\n') {
        let (words, line) = line.split_once(" ! ").unwrap_or(("", line));
        let (command, rest) = cut(line, ' ');
        match add(rt, alloc, &mut builder, command, rest) {
            Some(answer) => must(rt, is_answered(answer, words), line),
            None => {
                add_many(rt, alloc, &mut builder, &mut items, command, rest);
            }
        }
    }
    builder.finish(items)
}

//! Lists of texts among the loose nodes of a builder.
ghost use Rattle.std.specs.Prelude.{◌≡◌, ◌+◌, Some, length, IfOk, IfErr, OnOk, OnErr};
ghost use Rattle.java_shapes.specs.Ids.{texts_at};
ghost use Rattle.java_shapes.specs.Objects.{text_at};
ghost use Rattle.java_shapes.specs.Put.{Grows, IsPutRefusal, Puts};
ghost use Rattle.java_shapes.specs.Shapes.{AreTexts, TextsAt};

use crate::classes::{put_array, put_class, put_text};
use class_desc::{KnownClass, Slot, SlotList};
use sequence::{NameList, Units};
use ser_values::{BuildFault, Builder, Values};
use std::alloc::Global;

/// Puts a copy of a text.
fn put_copy(alloc: Global, b: &mut Builder, text: &Units) -> Result<Slot, BuildFault>
    ensures { Puts 1 (λ nodes s. text_at nodes s ≡ Some text.now) b.old b.new result }
{
    let text = text.copy(alloc)?;
    put_text(b, text)
}

/// Puts texts.
fn put_each(alloc: Global, b: &mut Builder, names: &[Units]) -> Result<SlotList, BuildFault>
    ensures { Puts (length names.now) (λ nodes slots. AreTexts nodes names.now slots) b.old b.new
        result }
{
    let mut texts = SlotList::new(alloc);
    for name in names {
        texts.push(put_copy(alloc, b, name)?)?;
    }
    Ok(texts)
}

/// Puts a list of texts; a refusal may leave some of its nodes.
fn put_some_texts(alloc: Global, b: &mut Builder, names: &[Units]) -> Result<Slot, BuildFault>
    ensures { Puts (16 + length names.now) (λ nodes s. TextsAt nodes names.now s) b.old b.new
        result }
{
    let texts = put_each(alloc, b, names)?;
    let class = put_class(alloc, b, KnownClass::TextArray, Slot::Null)?;
    put_array(b, class, Values::Refs(texts))
}

/// Puts a `String[]` of texts. TooManyNodes comes only where the loose nodes before, at most 16 and one for each text are more
/// than 65,536; else it is refused only for want of memory. After a refusal the builder is as it was.
pub fn put_texts(alloc: Global, b: &mut Builder, names: &NameList) -> Result<Slot, BuildFault>
    ensures ok { IfOk result (λ slot. TextsAt b.new names.now slot) }
    ensures grown { OnOk result (Grows (16 + length names.now) b.old b.new) }
    ensures viewed { IfOk result (λ slot. texts_at b.new slot ≡ Some names.now) }
    ensures err { IfErr result (IsPutRefusal (16 + length names.now) b.old) }
    ensures unchanged { OnErr result (b.new ≡ b.old) }
{
    let names = names.as_slice();
    let before = b.len();
    match put_some_texts(alloc, b, names) {
        Ok(slot) => Ok(slot),
        Err(fault) => {
            b.truncate(before);
            Err(fault)
        }
    }
}

//! The arguments of a call, as the graph whose items they are.
ghost use Rattle.std.specs.Prelude.{◌≡◌, ◌⊎◌, ◌++◌, ◌∷◌, [], List, Some, IfOk, IfErr, OnOk};
ghost use Rattle.class_desc.specs.declared.slot.Item.{Item as SentItem};
ghost use Rattle.class_desc.specs.declared.slot.Item.TheVariants as sent_items;
ghost use Rattle.java_shapes.specs.Objects.{text_at};
ghost use Rattle.java_shapes.specs.Proxies.{ProxyAt};
ghost use Rattle.java_shapes.specs.Put.{Grows};
ghost use Rattle.java_shapes.specs.RefNotes.{ref_note};
ghost use Rattle.rmi_client.specs.Requests.{sent_ref};
ghost use Rattle.stream_grammar.specs.Spelled.{joined};
ghost use Rattle.rmi_caller.specs.Arguments.{AddsItem, AreArguments, IsProxyItem, IsSent, IsTextItem, before_items};
ghost use Rattle.ser_write.specs.Canonical.{value_bytes};
ghost use Rattle.mod_utf.specs.Texts.{units_of};
ghost use Rattle.rmi_caller.specs.declared.error.CallError.TheVariants as errors;

use crate::argument::Argument;
use crate::error::CallError;
use class_desc::{Item, Items, Slot};
use java_shapes::{LiveRef, put_live_ref};
use mod_utf::units_of_text;
use mod_utf::utf::encoded_len;
use rmi_client::sent_ref;
use sequence::ByteList;
use ser_values::{BuildFault, Builder, Graph, Value};
use ser_write::put_primitive;
use std::alloc::{AllocError, Global};
use std::mem;

/// The most bytes of a reference's host.
const HOST_BYTES: u64 = 65_535;

/// The arguments of a call, as they are put.
struct Draft {
    builder: Builder,
    items: Items,
    /// Block data that is no item yet.
    run: ByteList,
}

// Written out, so that whoever owns one has one call at each exit, and not the drop of each field.
impl Drop for Draft {
    fn drop(self) {
        let Draft {
            builder,
            items,
            run,
        } = self;
        drop(builder);
        drop(items);
        drop(run);
    }
}

/// Puts a string.
fn put_text(alloc: Global, builder: &mut Builder, text: &str) -> Result<Slot, BuildFault>
    ensures put { IfOk result (λ slot. text_at builder.new slot ≡ Some (units_of text.now)) }
    ensures grown { OnOk result (Grows 16 builder.old builder.new) }
{
    builder.text(units_of_text(alloc, text)?)
}

/// Puts a reference, as a proxy of an interface.
fn put_remote(
    alloc: Global,
    builder: &mut Builder,
    interface: &str,
    reference: &LiveRef,
) -> Result<Slot, BuildFault>
    ensures put { IfOk result (ProxyAt builder.new (units_of interface.now)
        (ref_note (sent_ref reference.now))) }
    ensures grown { OnOk result (Grows 16 builder.old builder.new) }
{
    if encoded_len(&reference.host) > HOST_BYTES {
        return Err(BuildFault::WrongShape);
    }
    let interface = units_of_text(alloc, interface)?;
    let sent = sent_ref(alloc, reference)?;
    put_live_ref(alloc, builder, &interface, &sent)
}

impl Draft {
    /// Makes an item of the block data that is none yet.
    fn end_run(&mut self, alloc: Global) -> Result<(), AllocError>
        ensures items { OnOk result (self.new.items ≡ before_items self.old []) }
        ensures run { OnOk result (self.new.run ≡ []) }
        ensures builder { self.new.builder ≡ self.old.builder }
    {
        if self.run.is_empty() {
            return Ok(());
        }
        let run = mem::replace(&mut self.run, ByteList::new(alloc));
        self.items.push(Item::Bytes(run))
    }

    /// Adds a reference.
    fn add_slot(&mut self, alloc: Global, slot: Slot) -> Result<(), AllocError>
        ensures items { OnOk result ((more : List SentItem) → before_items self.new more
            ≡ before_items self.old (sent_items.Ref slot ∷ more)) }
        ensures builder { self.new.builder ≡ self.old.builder }
    {
        self.end_run(alloc)?;
        self.items.push(Item::Ref(slot))
    }

    /// Adds a number, a character or a truth value.
    fn add_value(&mut self, value: Value) -> Result<(), AllocError>
        ensures items { OnOk result ((more : List SentItem) → before_items self.new (joined more)
            ≡ before_items self.old (joined (sent_items.Bytes (value_bytes value) ∷ more))) }
        ensures builder { self.new.builder ≡ self.old.builder }
    {
        put_primitive(&mut self.run, value)
    }

    /// Adds a string.
    fn add_text(&mut self, alloc: Global, text: &str) -> Result<(), BuildFault>
        ensures added { OnOk result
            (AddsItem self.old self.new (IsTextItem self.new.builder (units_of text.now))) }
        ensures grown { OnOk result (Grows 16 self.old.builder self.new.builder) }
    {
        let slot = put_text(alloc, &mut self.builder, text)?;
        self.add_slot(alloc, slot)?;
        Ok(())
    }

    /// Adds a reference to a remote object.
    fn add_remote(
        &mut self,
        alloc: Global,
        interface: &str,
        reference: &LiveRef,
    ) -> Result<(), BuildFault>
        ensures added { OnOk result (AddsItem self.old self.new
            (IsProxyItem self.new.builder (units_of interface.now)
            (ref_note (sent_ref reference.now)))) }
        ensures grown { OnOk result (Grows 16 self.old.builder self.new.builder) }
    {
        let slot = put_remote(alloc, &mut self.builder, interface, reference)?;
        self.add_slot(alloc, slot)?;
        Ok(())
    }

    /// Adds an argument.
    fn add(&mut self, alloc: Global, argument: &Argument<'_>) -> Result<(), BuildFault>
        ensures added { OnOk result
            (AddsItem self.old self.new (IsSent self.new.builder argument.now)) }
        ensures grown { OnOk result (Grows 16 self.old.builder self.new.builder) }
    {
        match *argument {
            Argument::Boolean(value) => self.add_value(Value::Boolean(value))?,
            Argument::Byte(value) => self.add_value(Value::Byte(value))?,
            Argument::Char(value) => self.add_value(Value::Char(value))?,
            Argument::Short(value) => self.add_value(Value::Short(value))?,
            Argument::Int(value) => self.add_value(Value::Int(value))?,
            Argument::Long(value) => self.add_value(Value::Long(value))?,
            Argument::Null => self.add_slot(alloc, Slot::Null)?,
            Argument::Text(text) => self.add_text(alloc, text)?,
            Argument::Remote {
                interface,
                reference,
            } => self.add_remote(alloc, interface, reference)?,
        }
        Ok(())
    }

    /// The loose nodes, and the items. It takes no memory.
    fn into_parts(self) -> (Builder, Items)
        ensures builder { result.0 ≡ self.builder }
        ensures items { result.1 ≡ self.items }
    {
        let Draft {
            builder,
            items,
            run,
        } = self;
        drop(run);
        (builder, items)
    }
}

/// Returns the graph whose items are arguments. Numbers that stand side by side are one run of bytes.
pub(crate) fn arguments_graph(alloc: Global, arguments: &[Argument<'_>]) -> Result<Graph, CallError>
    ensures graph { IfOk result (AreArguments arguments.now) }
    ensures refused { IfErr result (λ error. (error ≡ errors.BadArguments)
        ⊎ (error ≡ errors.OutOfMemory)) }
{
    let mut draft = Draft {
        builder: Builder::new(alloc),
        items: Items::new(alloc),
        run: ByteList::new(alloc),
    };
    for argument in arguments {
        draft.add(alloc, argument)?;
    }
    draft.end_run(alloc)?;
    let (builder, items) = draft.into_parts();
    Ok(builder.finish(items)?)
}

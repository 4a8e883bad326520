//! The arguments of `call`, as the graph whose items they are.
ghost use Rattle.std.specs.Prelude.{◌≡◌, ◌≤◌, ◌<◌, ◌++◌, [], List, ◌∷◌, ◌+◌, length, IfOk, OnOk};
ghost use Rattle.class_desc.specs.declared.slot.Item.{Item as Items};
ghost use Rattle.ser_values.specs.declared.limits.TheConstants.{NODES};
ghost use Rattle.rmi_words.specs.declared.call_words.Argument.{Argument as Arguments};
ghost use Rattle.rmi_cli.specs.Arguments.{argument_items, argument_nodes, before_items, node_of, with_arguments};

use class_desc::{Item, Items, Slot};
use rmi_words::Argument;
use sequence::{ByteList, Units};
use ser_values::{BuildFault, Builder, Graph};
use ser_write::put_primitive;
use std::alloc::{AllocError, Global};
use std::mem;

/// The items of arguments, as they are made.
struct ItemDraft {
    items: Items,
    /// Block data that is no item yet.
    run: ByteList,
    /// The number of strings that there were.
    strings: u32,
}

// Written out, so that whoever owns one has one call at each exit, and not the drop of each field.
impl Drop for ItemDraft {
    fn drop(self) {
        let ItemDraft {
            items,
            run,
            strings: _,
        } = self;
        drop(items);
        drop(run);
    }
}

impl ItemDraft {
    /// Makes an item of the block data that is none yet.
    fn end_run(&mut self, alloc: Global) -> Result<(), AllocError>
        ensures items { OnOk result (self.new.items ≡ before_items self.old []) }
        ensures run { OnOk result (self.new.run ≡ []) }
        ensures strings { self.new.strings ≡ self.old.strings }
    {
        if self.run.is_empty() {
            return Ok(());
        }
        let run = mem::replace(&mut self.run, ByteList::new(alloc));
        self.items.push(Item::Bytes(run))
    }

    /// Adds the reference to the next string.
    fn add_string(&mut self, alloc: Global) -> Result<(), AllocError>
        requires { self.old.strings < 255 }
        ensures items { OnOk result ((more : List Items) → before_items self.new more
            ≡ before_items self.old (Item.Ref (Slot.Node self.old.strings) ∷ more)) }
        ensures strings { OnOk result (self.new.strings ≡ self.old.strings + 1) }
    {
        self.end_run(alloc)?;
        self.items.push(Item::Ref(Slot::Node(self.strings)))?;
        self.strings += 1;
        Ok(())
    }

    /// Adds an argument.
    fn add(&mut self, alloc: Global, argument: &Argument) -> Result<(), AllocError>
        requires { self.old.strings < 255 }
        ensures items { OnOk result ((more : List Arguments) → with_arguments self.new more
            ≡ with_arguments self.old (argument.now ∷ more)) }
        ensures strings { OnOk result (self.new.strings ≤ self.old.strings + 1) }
    {
        match argument {
            Argument::Prim(value) => put_primitive(&mut self.run, *value)?,
            Argument::Text(_) => self.add_string(alloc)?,
        }
        Ok(())
    }

    /// The items. It takes no memory.
    fn into_items(self) -> Items
        ensures { result ≡ self.items }
    {
        let ItemDraft {
            items,
            run,
            strings: _,
        } = self;
        drop(run);
        items
    }
}

/// The items of arguments.
fn argument_items(alloc: Global, arguments: &[Argument]) -> Result<Items, AllocError>
    requires { length arguments.now ≤ 255 }
    ensures { IfOk result (λ items. items ≡ argument_items arguments.now) }
{
    let mut draft = ItemDraft {
        items: Items::new(alloc),
        run: ByteList::new(alloc),
        strings: 0,
    };
    for argument in arguments {
        draft.add(alloc, argument)?;
    }
    draft.end_run(alloc)?;
    Ok(draft.into_items())
}

/// Adds a string.
fn put_string(builder: &mut Builder, units: Units) -> Result<(), AllocError>
    requires { length builder.old < NODES }
    ensures { OnOk result (builder.new ≡ builder.old ++ node_of (Argument.Text units)) }
{
    match builder.text(units) {
        Ok(_slot) => Ok(()),
        Err(BuildFault::OutOfMemory) => Err(AllocError),
        Err(_) => unreachable!(),
    }
}

/// Adds the node of an argument.
fn put_node(alloc: Global, builder: &mut Builder, argument: &Argument) -> Result<(), AllocError>
    requires { length builder.old < NODES }
    ensures { OnOk result (builder.new ≡ builder.old ++ node_of argument.now) }
{
    match argument {
        Argument::Prim(_) => Ok(()),
        Argument::Text(units) => put_string(builder, units.copy(alloc)?),
    }
}

/// Adds the nodes of arguments.
fn put_nodes(alloc: Global, builder: &mut Builder, arguments: &[Argument]) -> Result<(), AllocError>
    requires empty { builder.old ≡ [] }
    requires few { length arguments.now ≤ 255 }
    ensures { OnOk result (builder.new ≡ argument_nodes arguments.now) }
{
    for argument in arguments {
        put_node(alloc, builder, argument)?;
    }
    Ok(())
}

/// Returns the graph whose items are arguments: each string is a node of its own, and numbers that stand side by side are one run of bytes. It is refused
/// only for want of memory, which a string of 2^63 bytes would want.
pub fn arguments_graph(alloc: Global, arguments: &[Argument]) -> Result<Graph, AllocError>
    requires { length arguments.now ≤ 255 }
    ensures nodes { IfOk result (λ graph. graph.nodes ≡ argument_nodes arguments.now) }
    ensures items { IfOk result (λ graph. graph.items ≡ argument_items arguments.now) }
{
    let mut builder = Builder::new(alloc);
    put_nodes(alloc, &mut builder, arguments)?;
    let items = argument_items(alloc, arguments)?;
    match builder.finish(items) {
        Ok(graph) => Ok(graph),
        Err(_) => Err(AllocError),
    }
}

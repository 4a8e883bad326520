//! The results of calls.
ghost use Rattle.std.specs.Prelude.{◌∷◌, [], IfOk};
ghost use Rattle.class_desc.specs.declared.slot.Item.TheVariants as contents;
ghost use Rattle.class_desc.specs.declared.slot.Slot.TheVariants as slots;
ghost use Rattle.ser_values.specs.declared.node.Node.TheVariants as nodes;
ghost use Rattle.ser_values.specs.Finished.{IsGraphOf};
ghost use Rattle.rmi_server.specs.Replies.{
  AnswerGives,
  GivesTree,
  IsGraphAt,
  IsTextsGraph,
  ReplyGives,
};

use crate::fault::{CallFault, outcome_of_fault};
use call_dispatch::Outcome;
use class_desc::{Item, Items, Slot};
use java_shapes::texts_graph;
use object_ids::ObjId;
use sequence::{NameList, Units};
use ser_values::{BuildFault, Builder, Graph, Value};
use std::alloc::Global;

/// The result of a call.
#[derive(Debug, Drop)]
pub enum Reply {
    /// The method returns nothing.
    Void,
    /// A `boolean`.
    Boolean(bool),
    /// A `byte`, as its bits.
    Byte(u8),
    /// A `char`.
    Char(u16),
    /// A `short`.
    Short(i16),
    /// An `int`.
    Int(i32),
    /// A `long`.
    Long(i64),
    /// No object.
    Null,
    /// A `String`.
    Text(Units),
    /// A `String[]`.
    Texts(NameList),
    /// An object with all that it refers to: a graph whose one item it is.
    Graph(Graph),
    /// A new remote object of the kind with this number. It is exported, and stays so as long as a client holds it.
    New(u32),
    /// A remote object that there is, and the number of its kind.
    Object(ObjId, u32),
}

/// The graph whose one item is this reference to a loose node.
fn graph_with(alloc: Global, builder: Builder, slot: Slot) -> Result<Graph, BuildFault>
    ensures { IfOk result (IsGraphAt builder slot) }
{
    let mut items = Items::new(alloc);
    items.push(Item::Ref(slot))?;
    builder.finish(items)
}

/// The graph of null.
fn null_graph(alloc: Global) -> Result<Graph, BuildFault>
    ensures { IfOk result (IsGraphAt [] slots.Null) }
{
    graph_with(alloc, Builder::new(alloc), Slot::Null)
}

/// The graph of a text.
fn text_graph(alloc: Global, text: Units) -> Result<Graph, BuildFault>
    ensures { IfOk result (IsGraphAt (nodes.Text text ∷ []) (slots.Node 0)) }
{
    let mut builder = Builder::new(alloc);
    let slot = builder.text(text)?;
    graph_with(alloc, builder, slot)
}

/// The outcome that is null. There may be no memory for it.
fn null_outcome(alloc: Global) -> Outcome
    ensures { GivesTree (IsGraphOf [] (contents.Ref slots.Null ∷ [])) result }
{
    match null_graph(alloc) {
        Ok(graph) => Outcome::Tree(graph),
        Err(_refused) => Outcome::OutOfMemory,
    }
}

/// The outcome that is a text. There may be no memory for it.
fn text_outcome(alloc: Global, text: Units) -> Outcome
    ensures { GivesTree (IsGraphOf (nodes.Text text ∷ []) (contents.Ref (slots.Node 0) ∷ []))
        result }
{
    match text_graph(alloc, text) {
        Ok(graph) => Outcome::Tree(graph),
        Err(_refused) => Outcome::OutOfMemory,
    }
}

/// The outcome that is a list of texts. There may be no memory for it.
fn texts_outcome(alloc: Global, texts: &NameList) -> Outcome
    ensures { GivesTree (IsTextsGraph texts.now) result }
{
    match texts_graph(alloc, texts) {
        Ok(graph) => Outcome::Tree(graph),
        Err(_refused) => Outcome::OutOfMemory,
    }
}

/// The outcome of a call with a result.
fn outcome_of_reply(alloc: Global, reply: Reply) -> Outcome
    ensures { ReplyGives reply result }
{
    match reply {
        Reply::Void => Outcome::Void,
        Reply::Boolean(value) => Outcome::Prim(Value::Boolean(value)),
        Reply::Byte(value) => Outcome::Prim(Value::Byte(value)),
        Reply::Char(value) => Outcome::Prim(Value::Char(value)),
        Reply::Short(value) => Outcome::Prim(Value::Short(value)),
        Reply::Int(value) => Outcome::Prim(Value::Int(value)),
        Reply::Long(value) => Outcome::Prim(Value::Long(value)),
        Reply::Null => null_outcome(alloc),
        Reply::Text(text) => text_outcome(alloc, text),
        Reply::Texts(texts) => texts_outcome(alloc, &texts),
        Reply::Graph(graph) => Outcome::Tree(graph),
        Reply::New(kind) => Outcome::NewRemote(kind),
        Reply::Object(object, kind) => Outcome::OldRemote(object, kind),
    }
}

/// The outcome of a call that a service answered so.
pub(crate) fn outcome_of(alloc: Global, answer: Result<Reply, CallFault>) -> Outcome
    ensures { AnswerGives answer result }
{
    match answer {
        Ok(reply) => outcome_of_reply(alloc, reply),
        Err(fault) => outcome_of_fault(alloc, fault),
    }
}

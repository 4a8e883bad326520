//! Whether an outcome is one of a method.
ghost use Rattle.std.specs.Prelude.{◌≡◌, List, Option};
ghost use Rattle.class_desc.specs.declared.field.TypeCode.{TypeCode};
ghost use Rattle.system_objects.specs.declared.book.Kind.{Kind};
ghost use Rattle.call_dispatch.specs.Returns.{is_of, is_one_reference, returns_place, suits};

use crate::outcome::Outcome;
use crate::results::interface_for;
use class_desc::{Item, TypeCode, is_primitive};
use ser_values::{Graph, Value, fits_value};
use system_objects::Book;

/// Returns whether the value is of this primitive type.
fn is_of(code: TypeCode, value: Value) -> bool
    ensures { result ≡ is_of code value }
{
    is_primitive(code) && fits_value(code, value)
}

/// Returns whether the items are one reference and nothing else.
fn is_one_reference(items: &[Item]) -> bool
    ensures { result ≡ is_one_reference items.now }
{
    match items {
        [Item::Ref(_)] => true,
        _ => false,
    }
}

/// Returns whether a method with this result returns nothing.
pub(crate) fn returns_nothing(result_type: Option<TypeCode>) -> bool
    ensures { (kinds : List Kind) → result ≡ suits kinds result_type Outcome.Void }
{
    match result_type {
        Some(_code) => false,
        None => true,
    }
}

/// Returns whether a method with this result can return the value.
pub(crate) fn returns_value(result_type: Option<TypeCode>, value: Value) -> bool
    ensures { (kinds : List Kind) → result ≡ suits kinds result_type (Outcome.Prim value) }
{
    match result_type {
        Some(code) => is_of(code, value),
        None => false,
    }
}

/// Returns whether a method with this result can return the graph. It must be one reference.
pub(crate) fn returns_graph(result_type: Option<TypeCode>, graph: &Graph) -> bool
    ensures { (kinds : List Kind) → result ≡ suits kinds result_type (Outcome.Tree graph.now) }
{
    match result_type {
        Some(code) => !is_primitive(code) && is_one_reference(graph.items().as_slice()),
        None => false,
    }
}

/// Returns whether a method with this result can return an object of a kind.
fn returns_place(book: &Book, result_type: Option<TypeCode>, kind: u32) -> bool
    ensures { result ≡ returns_place book.now result_type kind }
{
    interface_for(book, result_type, kind).is_some()
}

/// Returns whether a method with this result can return the outcome. A method returns no fault.
pub fn suits(book: &Book, result_type: Option<TypeCode>, outcome: &Outcome) -> bool
    ensures { result ≡ suits book.now result_type outcome.now }
{
    match outcome {
        Outcome::Void => returns_nothing(result_type),
        Outcome::Prim(value) => returns_value(result_type, *value),
        Outcome::Tree(graph) => returns_graph(result_type, graph),
        Outcome::NewRemote(kind) => returns_place(book, result_type, *kind),
        Outcome::OldRemote(_object, kind) => returns_place(book, result_type, *kind),
        Outcome::Fault(_) => false,
        Outcome::OutOfMemory => false,
    }
}

//! Results that fit their methods.
ghost use Rattle.std.specs.Prelude.{◌≡◌, ◌⊎◌};
ghost use Rattle.call_dispatch.specs.declared.outcome.Outcome.TheVariants as outcomes;
ghost use Rattle.rmi_server.specs.Fits.{IsFitted, ends_call, fits};

use call_dispatch::{Book, Outcome, suits};
use class_desc::TypeCode;
use mod_utf::utf::units_of_ascii;
use std::alloc::Global;

/// The text of a call whose result is none of its method.
const WRONG_RESULT: &[u8] = b"java.rmi.MarshalException: the result does not fit its method";

/// The outcome that the client gets of a text.
fn fault_of(alloc: Global, text: &[u8]) -> Outcome
    ensures { (result ≡ outcomes.Fault text.now) ⊎ (result ≡ outcomes.OutOfMemory) }
{
    match units_of_ascii(alloc, text) {
        Ok(text) => Outcome::Fault(text),
        Err(_refused) => Outcome::OutOfMemory,
    }
}

/// Returns true if the outcome ends a call of any method: an exception, or no memory.
fn ends_call(outcome: &Outcome) -> bool
    ensures { result ≡ ends_call outcome.now }
{
    match outcome {
        Outcome::Fault(_) => true,
        Outcome::OutOfMemory => true,
        _ => false,
    }
}

/// Returns true if the outcome is one of a method with this result, or ends a call of any.
fn fits(book: &Book, result_type: Option<TypeCode>, outcome: &Outcome) -> bool
    ensures { result ≡ fits book.now result_type outcome.now }
{
    suits(book, result_type, outcome) || ends_call(outcome)
}

/// The outcome itself, where it fits a method with this result; in place of any other an exception, `java.rmi.MarshalException`.
pub(crate) fn fit_outcome(
    alloc: Global,
    book: &Book,
    result_type: Option<TypeCode>,
    outcome: Outcome,
) -> Outcome
    ensures { IsFitted book.now result_type outcome result }
{
    if fits(book, result_type, &outcome) {
        return outcome;
    }
    drop(outcome);
    fault_of(alloc, WRONG_RESULT)
}

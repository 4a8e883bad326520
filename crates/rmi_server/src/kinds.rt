//! Kinds of objects, from the texts by which Java knows them.
ghost use Rattle.std.specs.Prelude.{◌≡◌, ◌↔◌, All, map, IfOk, IfErr, IsTrue};
ghost use Rattle.rmi_server.specs.Kinds.{IsShort, RefusesKinds, RefusesTexts, texts_of};

use call_dispatch::{Book, BookFault, Kind, KindList};
use method_hash::{Method, MethodFault, MethodList};
use mod_utf::utf::{encoded_len, units_of_ascii};
use std::alloc::{AllocError, Global};
use thiserror::Error;

/// The most bytes of an interface's name.
const NAME_BYTES: u64 = 65_535;

/// The most methods of a kind, and the most kinds.
const COUNT: usize = 65_535;

/// The reason why kinds cannot be served.
#[derive(Clone, Copy, Debug, PartialEq, Eq, Error)]
pub enum KindFault {
    /// A method's text is none, as of this byte on, which is counted from 0. A text is a name and a descriptor, as `add(J)J`.
    #[error("no method's text from byte {at} on")]
    BadMethod {
        /// The number of bytes before it with which some method's text begins.
        at: usize,
    },
    /// A method has a parameter or a result of the type `float` or `double`, which are not served.
    #[error("method {method} of kind {kind} uses floats")]
    FloatMethod {
        /// The number of the kind.
        kind: u32,
        /// The place of the method in its kind.
        method: u32,
    },
    /// There are more than 65,535 kinds, methods of a kind, or bytes of an interface's name.
    #[error("too long")]
    TooLong,
    /// There was no memory.
    #[error("out of memory")]
    OutOfMemory,
}

impl From<AllocError> for KindFault {
    ghost use Rattle.rmi_server.specs.declared.kinds.KindFault.TheVariants.{OutOfMemory};

    ghost from_gives = { λ _ fault. fault ≡ OutOfMemory };

    fn from(_error: AllocError) -> KindFault {
        KindFault::OutOfMemory
    }
}

impl From<MethodFault> for KindFault {
    ghost use Rattle.rmi_server.specs.Kinds.{method_fault};

    ghost from_gives = { λ fault kind_fault. kind_fault ≡ method_fault fault };

    fn from(fault: MethodFault) -> KindFault {
        match fault {
            MethodFault::BadDescriptor { at } => KindFault::BadMethod { at },
            MethodFault::OutOfMemory => KindFault::OutOfMemory,
        }
    }
}

impl From<BookFault> for KindFault {
    ghost use Rattle.rmi_server.specs.Kinds.{book_fault};

    ghost from_gives = { λ fault kind_fault. kind_fault ≡ book_fault fault };

    fn from(fault: BookFault) -> KindFault {
        match fault {
            BookFault::FloatMethod { kind, method } => KindFault::FloatMethod { kind, method },
            BookFault::OutOfMemory => KindFault::OutOfMemory,
        }
    }
}

/// The methods of these texts, in their order. BadMethod comes where a text is no method's.
fn methods_of(alloc: Global, texts: &[&str]) -> Result<MethodList, KindFault>
    ensures ok { IfOk result (λ methods. texts_of methods ≡ map (λ text. text.now) texts.now) }
    ensures err { IfErr result (RefusesTexts (map (λ text. text.now) texts.now)) }
{
    let mut methods = MethodList::new(alloc);
    for text in texts {
        methods.push(Method::parse(alloc, text.as_bytes())?)?;
    }
    Ok(methods)
}

/// The kind of objects that clients know by this interface, and call by these methods: each a name and a descriptor, as `add(J)J`. The interface
/// is a class's full name in ASCII, as `example.Ledger`. BadMethod comes where a text is no method's.
pub fn kind(alloc: Global, interface: &str, methods: &[&str]) -> Result<Kind, KindFault>
    ensures interface { IfOk result (λ kind. kind.interface ≡ interface.now) }
    ensures methods { IfOk result
        (λ kind. texts_of kind.methods ≡ map (λ text. text.now) methods.now) }
    ensures err { IfErr result (RefusesTexts (map (λ text. text.now) methods.now)) }
{
    Ok(Kind {
        interface: units_of_ascii(alloc, interface.as_bytes())?,
        methods: methods_of(alloc, methods)?,
    })
}

/// Returns true if a kind's name and the list of its methods are short enough.
fn is_short(kind: &Kind) -> bool
    ensures { IsTrue result ↔ IsShort kind.now }
{
    encoded_len(&kind.interface) <= NAME_BYTES && kind.methods.len() <= COUNT
}

/// Returns true if each kind's name and the list of its methods are short enough.
fn are_short(kinds: &[Kind]) -> bool
    ensures { IsTrue result ↔ All IsShort kinds.now }
{
    kinds.iter().all(|kind| is_short(kind))
}

/// The kinds in the form in which a server looks them up. FloatMethod comes where a method uses floats, and TooLong where a name or a list is too
/// long.
pub fn book_of(alloc: Global, kinds: KindList) -> Result<Book, KindFault>
    ensures ok { IfOk result (λ book. book ≡ kinds) }
    ensures err { IfErr result (RefusesKinds kinds) }
{
    if kinds.len() > COUNT || !are_short(kinds.as_slice()) {
        return Err(KindFault::TooLong);
    }
    Ok(Book::new(alloc, kinds)?)
}

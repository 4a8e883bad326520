//! Exceptions that servers answer.
ghost use Rattle.std.specs.Prelude.{◌≡◌, ◌≤◌, length, IfOk};
ghost use Rattle.rmi_caller.specs.Exceptions.{colon_at, class_of, message_of};

use sequence::Units;
use std::alloc::{AllocError, Global};
use std::char::decode_utf16;
use std::fmt;

/// The colon between a class and a message.
const COLON: u16 = 0x3A;

/// An exception that a server answered.
#[derive(Debug)]
pub struct RemoteException {
    /// The full name of its class, as `java.rmi.NoSuchObjectException`.
    pub class: Units,
    /// Its message, which is empty where it has none.
    pub message: Units,
}

// Written out, so that whoever owns one has one call at each exit, and not the drop of each field.
impl Drop for RemoteException {
    fn drop(self) {
        let RemoteException { class, message } = self;
        drop(class);
        drop(message);
    }
}

/// Returns the number of units before the first colon, or of all where there is none.
fn colon_at(units: &[u16]) -> usize
    ensures place { result ≡ colon_at units.now }
    ensures few { result ≤ length units.now }
{
    for (at, unit) in units.iter().enumerate() {
        if *unit == COLON {
            return at;
        }
    }
    units.len()
}

/// The class of the exception of a text: what stands before its first colon.
pub(crate) fn class_of(units: &[u16]) -> &[u16]
    ensures { result.now ≡ class_of units.now }
{
    &units[..colon_at(units)]
}

/// The message of the exception of a text: what stands behind its first colon and a space.
fn message_of(units: &[u16]) -> &[u16]
    ensures { result.now ≡ message_of units.now }
{
    let at = colon_at(units);
    if units.len() - at < 2 {
        return &[];
    }
    &units[at + 2..]
}

/// Returns the exception of a text: its class, and, where it has a message, a colon, a space and that.
pub(crate) fn exception_of(alloc: Global, text: &[u16]) -> Result<RemoteException, AllocError>
    ensures class { IfOk result (λ exception. exception.class ≡ class_of text.now) }
    ensures message { IfOk result (λ exception. exception.message ≡ message_of text.now) }
{
    Ok(RemoteException {
        class: Units::from_slice(alloc, class_of(text))?,
        message: Units::from_slice(alloc, message_of(text))?,
    })
}

/// Writes units as text. One that is half of a pair stands as U+FFFD.
fn write_units<W: fmt::Write>(f: &mut fmt::Formatter<W>, units: &Units) -> fmt::Result {
    for read in decode_utf16(units.iter().copied()) {
        match read {
            Ok(c) => f.write_char(c)?,
            Err(_) => f.write_char('\u{FFFD}')?,
        }
    }
    Ok(())
}

impl fmt::Display for RemoteException {
    fn fmt<W: fmt::Write>(&self, f: &mut fmt::Formatter<W>) -> fmt::Result {
        write_units(f, &self.class)?;
        if self.message.is_empty() {
            return Ok(());
        }
        write!(f, ": ")?;
        write_units(f, &self.message)
    }
}

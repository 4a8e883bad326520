//! The texts of remote methods (Java RMI Specification, 8.3).
ghost use Rattle.std.specs.Prelude.{◌≡◌, ◌⊎◌, ◌+◌, ◌^◌, ◌<◌, ◌≤◌, ◌++◌, None, Some, OnOk, IfOk, IfErr, IfSome, IfNone};
ghost use Rattle.method_hash.specs.MethodText.{IsMethod, IsUnread};
ghost use Rattle.method_hash.specs.Next.{next, need};
ghost use Rattle.method_hash.specs.TextReading.{name_noted, param_noted, returned_noted};
ghost use Rattle.method_hash.specs.declared.method.MethodFault.TheVariants.{OutOfMemory};
ghost use Rattle.method_hash.specs.declared.place.TextPlace.{TextPlace as Places};
ghost use Rattle.method_hash.specs.declared.place.TextPlace.TheVariants.{Name};
ghost use Rattle.method_hash.specs.declared.method.TheConstants.{METHOD_BYTES};

use crate::place::TextPlace;
use class_desc::TypeCode;
use sequence::{ByteList, Sequence, TryCopy};
use std::alloc::{AllocError, Global};
use thiserror::Error;

/// The greatest number of bytes of a method's text.
pub const METHOD_BYTES: usize = 65_535;

/// A list of types.
pub type CodeList = Sequence<TypeCode>;

/// The reason why bytes are no method's text.
#[derive(Clone, Copy, Debug, PartialEq, Eq, Error)]
pub enum MethodFault {
    /// The longest front of them with which some method's text begins ends at this place, counted in bytes from 0.
    #[error("no method's text from byte {at} on")]
    BadDescriptor {
        /// The number of bytes in that front.
        at: usize,
    },
    /// There was no memory.
    #[error("out of memory")]
    OutOfMemory,
}

impl From<AllocError> for MethodFault {
    ghost from_gives = { λ _ fault. fault ≡ OutOfMemory };

    fn from(_error: AllocError) -> MethodFault {
        MethodFault::OutOfMemory
    }
}

/// A remote method, as its text says it: a name, the types of the parameters in parentheses, and the type of the result, as in
/// `add(J)J`.
#[derive(Debug)]
pub struct Method {
    /// Its name: 1 to 255 bytes.
    pub name: ByteList,
    /// The types of its parameters, of which there are at most 255.
    pub params: CodeList,
    /// The type of its result; None where it returns nothing.
    pub result: Option<TypeCode>,
    /// Its text, of at most 65,535 bytes.
    pub text: ByteList,
    pub ghost spelled: { ∥ IsMethod text name params result ∥₁ },
}

// Written out, so that whoever owns one has one call at each exit, and not the drop of each field.
impl Drop for Method {
    fn drop(self) {
        let Method {
            name,
            params,
            result: _,
            text,
        } = self;
        drop(name);
        drop(params);
        drop(text);
    }
}

impl TryCopy for Method {
    fn try_copy(&self, alloc: Global) -> Result<Method, AllocError> {
        Ok(Method {
            name: self.name.copy(alloc)?,
            params: self.params.copy(alloc)?,
            result: self.result,
            text: self.text.copy(alloc)?,
        })
    }
}

/// A list of methods.
pub type MethodList = Sequence<Method>;

/// The parts of a method's text that were read.
#[derive(Drop)]
struct Draft {
    /// Where reading has come to.
    place: TextPlace,
    name: ByteList,
    params: CodeList,
    result: Option<TypeCode>,
}

impl Draft {
    /// Notes what a byte tells that leads to a place.
    fn note(&mut self, byte: u8, next: TextPlace) -> Result<(), AllocError>
        ensures place { OnOk result (self.new.place ≡ next) }
        ensures name { OnOk result
            (self.new.name ≡ self.old.name ++ name_noted self.old.place byte) }
        ensures params { OnOk result
            (self.new.params ≡ self.old.params ++ param_noted self.old.place byte) }
        ensures returned { OnOk result
            (self.new.result ≡ returned_noted self.old.place byte self.old.result) }
    {
        match self.place {
            TextPlace::Name(_) => {
                if byte != b'(' {
                    self.name.push(byte)?;
                }
            }
            TextPlace::Parameters(_) => {
                if let Some(code) = TypeCode::from_letter(byte) {
                    self.params.push(code)?;
                }
            }
            TextPlace::Returned => self.result = TypeCode::from_letter(byte),
            _ => {}
        }
        self.place = next;
        Ok(())
    }
}

/// Where reading stands behind a byte, before which so many were read; None where no method's text that is short enough goes on so.
fn step(place: TextPlace, byte: u8, at: usize) -> Option<TextPlace>
    requires { at < 2 ^ 62 }
    ensures some { IfSome result
        (λ q. (next place byte ≡ Some q) × (at + 1 + need q ≤ METHOD_BYTES)) }
    ensures none { IfNone result
        ((next place byte ≡ None)
        ⊎ ((q : Places) × (next place byte ≡ Some q) × (METHOD_BYTES < at + 1 + need q))) }
{
    let next = place.next(byte)?;
    if at + 1 + next.need() <= METHOD_BYTES {
        Some(next)
    } else {
        None
    }
}

impl Method {
    /// The method of a text. `BadDescriptor` comes exactly where the bytes are no method's text; its place is the length of the longest
    /// front of them with which some method's text begins.
    pub fn parse(alloc: Global, text: &[u8]) -> Result<Method, MethodFault>
        ensures ok { IfOk result
            (λ method. IsMethod text.now method.name method.params method.result) }
        ensures text { IfOk result (λ method. method.text ≡ text.now) }
        ensures err { IfErr result (λ fault. IsUnread text.now fault) }
    {
        let mut draft = Draft {
            place: TextPlace::Name(0),
            name: ByteList::new(alloc),
            params: CodeList::new(alloc),
            result: None,
        };
        for (at, byte) in text.iter().enumerate() {
            match step(draft.place, *byte, at) {
                Some(next) => draft.note(*byte, next)?,
                None => return Err(MethodFault::BadDescriptor { at }),
            }
        }
        if !draft.place.is_end() {
            return Err(MethodFault::BadDescriptor { at: text.len() });
        }
        let text = ByteList::from_slice(alloc, text)?;
        Ok(Method {
            name: draft.name,
            params: draft.params,
            result: draft.result,
            text,
        })
    }
}

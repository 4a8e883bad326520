//! Class outlines.
ghost use Rattle.std.specs.Prelude.{◌≡◌, true};
ghost use Rattle.suid_calc.specs.declared.outline.OutlineFault.TheVariants.{OutOfMemory};
ghost use Rattle.std.proofs.Props.{props};
ghost use Rattle.std.specs.List.{AllByRecursion};
ghost use Rattle.std.specs.List.Sorted.{IsStrictlySortedBy};
ghost use Rattle.suid_calc.specs.Members.{compare};
ghost use Rattle.suid_calc.specs.Reading.{is_name, is_good};

use sequence::{ByteList, Sequence};
use std::alloc::AllocError;
use thiserror::Error;

/// The greatest number of bytes of a name.
pub const NAME_BYTES: usize = 255;
/// The greatest number of bytes of a type's text and of a descriptor.
pub const TYPE_BYTES: usize = 65_535;
/// The greatest number of parameters in a descriptor.
pub const MAX_PARAMETERS: usize = 255;
/// The greatest number that modifiers make.
pub const MAX_MODIFIERS: u32 = 65_535;

/// Why a text is no class's outline.
#[derive(Clone, Copy, Debug, PartialEq, Eq, Error)]
pub enum OutlineFault {
    /// This line is the first that is not one of an outline in its place, or that repeats a member.
    #[error("bad line {line}")]
    BadLine {
        /// The line's number, from 1.
        line: usize,
    },
    /// There was no memory.
    #[error("out of memory")]
    OutOfMemory,
}

impl From<AllocError> for OutlineFault {
    ghost from_gives = { λ _ fault. fault ≡ OutOfMemory };

    fn from(_error: AllocError) -> OutlineFault {
        OutlineFault::OutOfMemory
    }
}

/// A member of a class, as a line of its outline says it. Modifiers are the sum of their bits in a class file: public 1, private 2,
/// protected 4, static 8, final 16, synchronized 32, volatile 64, transient 128, native 256, abstract 1024, strict 2048.
#[derive(Debug)]
pub enum Member {
    /// An interface that the class names.
    Interface {
        /// The interface's name, with dots.
        name: ByteList,
    },
    /// A field.
    Field {
        /// The field's modifiers.
        modifiers: u16,
        /// The field's name.
        name: ByteList,
        /// The text of the field's type, as in `[Ljava/lang/String;`.
        type_text: ByteList,
    },
    /// The class's initializer.
    Initializer,
    /// A constructor.
    Constructor {
        /// The constructor's modifiers.
        modifiers: u16,
        /// The types of its parameters in parentheses, and `V`; any type is taken in place of `V`.
        descriptor: ByteList,
    },
    /// A method.
    Method {
        /// The method's modifiers.
        modifiers: u16,
        /// The method's name.
        name: ByteList,
        /// The types of its parameters in parentheses, and the type of its result.
        descriptor: ByteList,
    },
}

// Written out, so that whoever owns one has one call at each exit, and not the drop of each variant.
impl Drop for Member {
    fn drop(self) {
        match self {
            Member::Interface { name } => drop(name),
            Member::Field {
                modifiers: _,
                name,
                type_text,
            } => {
                drop(name);
                drop(type_text);
            }
            Member::Initializer => {}
            Member::Constructor {
                modifiers: _,
                descriptor,
            } => drop(descriptor),
            Member::Method {
                modifiers: _,
                name,
                descriptor,
            } => {
                drop(name);
                drop(descriptor);
            }
        }
    }
}

/// A list of members.
pub type MemberList = Sequence<Member>;

/// The outline of a class: its own line, and its members in the order of section 4.6: interfaces, fields, the class initializer,
/// constructors and methods; in each kind by the bytes of the name, and then by those of the descriptor. No member is there twice.
#[derive(Debug)]
pub struct ClassOutline {
    /// The class's modifiers: also interface 512.
    pub modifiers: u16,
    /// The class's name, with dots.
    pub name: ByteList,
    /// The class's members.
    pub members: MemberList,
    pub ghost named: { is_name name ≡ true },
    pub ghost good: { AllByRecursion (λ m. is_good m ≡ true) members } by { Prim.hlevel props },
    pub ghost ordered: { IsStrictlySortedBy compare members } by { Prim.hlevel props },
}

// Written out, so that whoever owns one has one call at each exit, and not the drop of each field.
impl Drop for ClassOutline {
    fn drop(self) {
        let ClassOutline {
            modifiers: _,
            name,
            members,
        } = self;
        drop(name);
        drop(members);
    }
}

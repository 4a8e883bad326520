//! The fields of a class.
ghost use Rattle.std.specs.Prelude.{◌≡◌};
ghost use Rattle.class_desc.specs.TypeCode.{is_primitive};

use crate::slot::Slot;
use sequence::{Sequence, Units};

/// The type of a field or of an array's elements (`prim_typecode` and `obj_typecode`, section 6.4.2).
#[derive(Clone, Copy, Debug, PartialEq, Eq)]
pub enum TypeCode {
    /// `byte`.
    Byte,
    /// `char`.
    Char,
    /// `double`.
    Double,
    /// `float`.
    Float,
    /// `int`.
    Int,
    /// `long`.
    Long,
    /// `short`.
    Short,
    /// `boolean`.
    Boolean,
    /// An array, `[`.
    Array,
    /// A class or an interface, `L`.
    Object,
}

/// A field of a class.
#[derive(Debug)]
pub struct FieldDesc {
    /// The field's type.
    pub code: TypeCode,
    /// The field's name.
    pub name: Units,
    /// The text that names the type of a reference field; null for a primitive one.
    pub type_text: Slot,
}

// Written out, so that whoever owns one has one call at each exit, and not the drop of each field.
impl Drop for FieldDesc {
    fn drop(self) {
        let FieldDesc {
            code: _,
            name,
            type_text: _,
        } = self;
        drop(name);
    }
}

/// A list of fields.
pub type FieldList = Sequence<FieldDesc>;

/// True where values of the type are primitive, and no references.
pub fn is_primitive(code: TypeCode) -> bool
    ensures { result ≡ is_primitive code }
{
    match code {
        TypeCode::Array => false,
        TypeCode::Object => false,
        _ => true,
    }
}

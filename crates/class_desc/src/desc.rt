//! Class descriptions.

use crate::field::FieldList;
use crate::slot::{Items, Slot};
use sequence::{NameList, Units};

/// The flag of a class with a `writeObject` method of its own (`SC_WRITE_METHOD`, section 6.4.2).
pub const WRITE_METHOD: u8 = 1;
/// The flag of a serializable class (`SC_SERIALIZABLE`).
pub const SERIALIZABLE: u8 = 2;
/// The flag of an externalizable class (`SC_EXTERNALIZABLE`).
pub const EXTERNALIZABLE: u8 = 4;
/// The flag of an externalizable class that writes block data (`SC_BLOCK_DATA`).
pub const BLOCK_DATA: u8 = 8;
/// The flag of an enum's class (`SC_ENUM`).
pub const ENUM: u8 = 16;

/// The description of a class (`TC_CLASSDESC`, section 6.4.1).
#[derive(Debug)]
pub struct ClassDesc {
    /// The class's name.
    pub name: Units,
    /// The class's serialVersionUID.
    pub suid: i64,
    /// The sum of the flags that the class has.
    pub flags: u8,
    /// The class's own fields.
    pub fields: FieldList,
    /// The class's annotation.
    pub note: Items,
    /// The superclass's description.
    pub parent: Slot,
}

// Written out, so that whoever owns one has one call at each exit, and not the drop of each field.
impl Drop for ClassDesc {
    fn drop(self) {
        let ClassDesc {
            name,
            suid: _,
            flags: _,
            fields,
            note,
            parent: _,
        } = self;
        drop(name);
        drop(fields);
        drop(note);
    }
}

/// The description of a dynamic proxy class (`TC_PROXYCLASSDESC`, section 6.4.1).
#[derive(Debug)]
pub struct ProxyDesc {
    /// The names of the class's interfaces.
    pub names: NameList,
    /// The class's annotation.
    pub note: Items,
    /// The superclass's description.
    pub parent: Slot,
}

// Written out, so that whoever owns one has one call at each exit, and not the drop of each field.
impl Drop for ProxyDesc {
    fn drop(self) {
        let ProxyDesc {
            names,
            note,
            parent: _,
        } = self;
        drop(names);
        drop(note);
    }
}

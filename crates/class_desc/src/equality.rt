//! Equality of descriptions and of what they hold.

use crate::desc::{ClassDesc, ProxyDesc};
use crate::field::{FieldDesc, TypeCode};
use crate::slot::{Item, Slot};
use sequence::Same;

impl Same for Slot {
    fn is_same(&self, other: &Slot) -> bool {
        *self == *other
    }
}

impl Same for TypeCode {
    fn is_same(&self, other: &TypeCode) -> bool {
        *self == *other
    }
}

impl Same for Item {
    fn is_same(&self, other: &Item) -> bool {
        match (self, other) {
            (Item::Bytes(bytes), Item::Bytes(others)) => bytes.is_same(others),
            (Item::Ref(slot), Item::Ref(another)) => *slot == *another,
            _ => false,
        }
    }
}

impl Same for FieldDesc {
    fn is_same(&self, other: &FieldDesc) -> bool {
        self.code == other.code
            && self.type_text == other.type_text
            && self.name.is_same(&other.name)
    }
}

impl Same for ClassDesc {
    fn is_same(&self, other: &ClassDesc) -> bool {
        self.suid == other.suid
            && self.flags == other.flags
            && self.parent == other.parent
            && self.name.is_same(&other.name)
            && self.fields.is_same(&other.fields)
            && self.note.is_same(&other.note)
    }
}

impl Same for ProxyDesc {
    fn is_same(&self, other: &ProxyDesc) -> bool {
        self.parent == other.parent
            && self.names.is_same(&other.names)
            && self.note.is_same(&other.note)
    }
}

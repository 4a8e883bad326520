//! Copies of descriptions and of what they hold.

use crate::desc::{ClassDesc, ProxyDesc};
use crate::field::{FieldDesc, TypeCode};
use crate::known_class::PartField;
use crate::slot::{Item, Slot};
use sequence::TryCopy;
use std::alloc::{AllocError, Global};

impl TryCopy for Slot {
    fn try_copy(&self, _alloc: Global) -> Result<Slot, AllocError> {
        Ok(*self)
    }
}

impl TryCopy for TypeCode {
    fn try_copy(&self, _alloc: Global) -> Result<TypeCode, AllocError> {
        Ok(*self)
    }
}

impl TryCopy for PartField {
    fn try_copy(&self, alloc: Global) -> Result<PartField, AllocError> {
        Ok(PartField {
            code: self.code,
            name: self.name.copy(alloc)?,
            type_text: self.type_text.copy(alloc)?,
        })
    }
}

impl TryCopy for Item {
    fn try_copy(&self, alloc: Global) -> Result<Item, AllocError> {
        match self {
            Item::Bytes(bytes) => Ok(Item::Bytes(bytes.copy(alloc)?)),
            Item::Ref(slot) => Ok(Item::Ref(*slot)),
        }
    }
}

impl TryCopy for FieldDesc {
    fn try_copy(&self, alloc: Global) -> Result<FieldDesc, AllocError> {
        Ok(FieldDesc {
            code: self.code,
            name: self.name.copy(alloc)?,
            type_text: self.type_text,
        })
    }
}

impl TryCopy for ClassDesc {
    fn try_copy(&self, alloc: Global) -> Result<ClassDesc, AllocError> {
        Ok(ClassDesc {
            name: self.name.copy(alloc)?,
            suid: self.suid,
            flags: self.flags,
            fields: self.fields.copy(alloc)?,
            note: self.note.copy(alloc)?,
            parent: self.parent,
        })
    }
}

impl TryCopy for ProxyDesc {
    fn try_copy(&self, alloc: Global) -> Result<ProxyDesc, AllocError> {
        Ok(ProxyDesc {
            names: self.names.copy(alloc)?,
            note: self.note.copy(alloc)?,
            parent: self.parent,
        })
    }
}

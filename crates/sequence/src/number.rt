//! Numbers and truth values as items of lists.
use crate::list::{Same, TryCopy};
use std::alloc::{AllocError, Global};

impl TryCopy for u8 {
    fn try_copy(&self, _alloc: Global) -> Result<u8, AllocError> {
        Ok(*self)
    }

    fn try_copy_all(alloc: Global, items: &[u8]) -> Result<Vec<u8>, AllocError> {
        Vec::from_slice(alloc, items)
    }
}

impl Same for u8 {
    fn is_same(&self, other: &u8) -> bool {
        *self == *other
    }
}

impl TryCopy for u16 {
    fn try_copy(&self, _alloc: Global) -> Result<u16, AllocError> {
        Ok(*self)
    }

    fn try_copy_all(alloc: Global, items: &[u16]) -> Result<Vec<u16>, AllocError> {
        Vec::from_slice(alloc, items)
    }
}

impl Same for u16 {
    fn is_same(&self, other: &u16) -> bool {
        *self == *other
    }
}

impl TryCopy for u32 {
    fn try_copy(&self, _alloc: Global) -> Result<u32, AllocError> {
        Ok(*self)
    }
}

impl Same for u32 {
    fn is_same(&self, other: &u32) -> bool {
        *self == *other
    }
}

impl TryCopy for u64 {
    fn try_copy(&self, _alloc: Global) -> Result<u64, AllocError> {
        Ok(*self)
    }
}

impl Same for u64 {
    fn is_same(&self, other: &u64) -> bool {
        *self == *other
    }
}

impl TryCopy for i16 {
    fn try_copy(&self, _alloc: Global) -> Result<i16, AllocError> {
        Ok(*self)
    }
}

impl Same for i16 {
    fn is_same(&self, other: &i16) -> bool {
        *self == *other
    }
}

impl TryCopy for i32 {
    fn try_copy(&self, _alloc: Global) -> Result<i32, AllocError> {
        Ok(*self)
    }
}

impl Same for i32 {
    fn is_same(&self, other: &i32) -> bool {
        *self == *other
    }
}

impl TryCopy for i64 {
    fn try_copy(&self, _alloc: Global) -> Result<i64, AllocError> {
        Ok(*self)
    }
}

impl Same for i64 {
    fn is_same(&self, other: &i64) -> bool {
        *self == *other
    }
}

impl TryCopy for bool {
    fn try_copy(&self, _alloc: Global) -> Result<bool, AllocError> {
        Ok(*self)
    }
}

impl Same for bool {
    fn is_same(&self, other: &bool) -> bool {
        *self == *other
    }
}

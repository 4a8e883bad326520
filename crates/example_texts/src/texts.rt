//! A list of texts that all clients share.
use rmi_server::{Call, CallFault, KindFault, KindList, ObjId, Reply, Service, kind};
use sequence::{NameList, Units};
use std::alloc::Global;

/// The number of the kind of lists.
pub const TEXTS: u32 = 0;

/// The kinds, as Java's interfaces of these names have them.
pub fn kinds(alloc: Global) -> Result<KindList, KindFault> {
    let methods = [
        "add(Ljava/lang/String;)I",
        "get(I)Ljava/lang/String;",
        "all()[Ljava/lang/String;",
    ];
    let mut kinds = KindList::new(alloc);
    kinds.push(kind(alloc, "example.Texts", &methods)?)?;
    Ok(kinds)
}

/// The texts, in the order in which they were added.
#[derive(Drop)]
pub struct Texts {
    pub texts: NameList,
}

impl Texts {
    /// Adds a text, and returns its place.
    fn add(&mut self, text: Units) -> Result<Reply, CallFault> {
        let place = i32::try_from(self.texts.len()).unwrap_or(i32::MAX);
        self.texts.push(text)?;
        Ok(Reply::Int(place))
    }

    /// Returns the text at a place.
    fn get(&self, call: &Call<'_>, place: i32) -> Result<Reply, CallFault> {
        let place = usize::try_from(place).unwrap_or(usize::MAX);
        match self.texts.as_slice().get(place) {
            Some(text) => Ok(Reply::Text(text.copy(call.alloc)?)),
            None => {
                let text = "java.lang.IndexOutOfBoundsException: no such text";
                Err(CallFault::exception(call.alloc, text))
            }
        }
    }
}

impl Service for Texts {
    fn call(&mut self, call: &Call<'_>) -> Result<Reply, CallFault> {
        match call.name() {
            b"add" => self.add(call.string(0)?),
            b"get" => self.get(call, call.int(0)?),
            b"all" => Ok(Reply::Texts(self.texts.copy(call.alloc)?)),
            _ => Err(CallFault::UnknownMethod),
        }
    }

    fn unreferenced(&mut self, _object: ObjId) {}
}

//! A client, and how it tells its remotes apart.
ghost use Rattle.std.specs.Prelude.{◌≢◌, Err};
ghost use Rattle.rmi_caller.specs.declared.error.CallError.TheVariants as errors;

use crate::error::CallError;
use object_ids::{Uid, UidDraw, Vmid};
use sequence::ByteList;
use std::alloc::Global;
use std::io;
use std::random::RandomSource;

/// The least moment that no identifier begins with.
const MOMENTS: u64 = 1 << 61;

/// A client of remote objects. Each [`crate::Remote`] that it makes has an identifier of its own, by which servers tell apart who holds their objects.
#[derive(Debug)]
pub struct Client {
    pub(crate) alloc: Global,
    address: u64,
    draw: UidDraw,
}

// Written out, so that whoever owns one has one call at each exit, and not the drop of each field.
impl Drop for Client {
    fn drop(self) {
        let Client {
            alloc: _,
            address: _,
            draw,
        } = self;
        drop(draw);
    }
}

/// Random numbers that tell a client from all others.
fn numbers(rt: &impl RandomSource) -> io::Result<(u64, i32, u64)> {
    let mut address = [0; 8];
    rt.fill_bytes(&mut address)?;
    let mut unique = [0; 4];
    rt.fill_bytes(&mut unique)?;
    let mut time = [0; 8];
    rt.fill_bytes(&mut time)?;
    Ok((
        u64::from_be_bytes(address),
        i32::from_be_bytes(unique),
        u64::from_be_bytes(time),
    ))
}

impl Client {
    /// The client that these numbers tell from all others. They have to be random: who knows them can give up what the client holds.
    pub fn new(alloc: Global, address: u64, unique: i32, time: u64) -> Client {
        Client {
            alloc,
            address,
            draw: UidDraw::new(unique, (time % MOMENTS) as i64),
        }
    }

    /// A client with random numbers. NoSeed comes where the system gives none.
    pub fn random(alloc: Global, rt: &impl RandomSource) -> Result<Client, CallError> {
        match numbers(rt) {
            Ok((address, unique, time)) => Ok(Client::new(alloc, address, unique, time)),
            Err(_) => Err(CallError::NoSeed),
        }
    }

    /// The identifier of the next remote. NumbersSpent comes where none is left.
    pub(crate) fn identifier(&mut self) -> Result<Vmid, CallError>
        ensures { result ≢ Err errors.DialFault }
    {
        let address = ByteList::from_slice(self.alloc, &self.address.to_be_bytes())?;
        let Some(uid) = self.draw.next() else {
            return Err(CallError::NumbersSpent);
        };
        match Vmid::new(address, uid) {
            Some(vmid) => Ok(vmid),
            None => unreachable!(),
        }
    }
}

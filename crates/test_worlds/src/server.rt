//! The server of a world by the plain lists of its returns and of its clients' lease calls. What is kept is asked anew after each event.
use history::{Ask, Call, Exported, SpaceConfig, grant};
use history_model::leases::{holds, lease_end};
use history_model::table::call_with;
use object_ids::{ObjId, Uid};
use std::alloc::{AllocError, Global};
use std::mem;

/// The number of the object that makes the others.
pub(crate) const MAKER: i64 = 16;

/// The server.
pub(crate) struct Server {
    config: SpaceConfig,
    /// The greatest moment of an event.
    pub(crate) now: u64,
    /// The number of events.
    pub(crate) events: u64,
    /// The units that they take.
    pub(crate) units: u64,
    /// The moment of each return, and whether it was acknowledged. The k-th returned the object 17 + k.
    returns: Vec<(u64, bool)>,
    /// The lease calls of each client, the newest first.
    calls: Vec<Vec<Call>>,
    /// The objects that were ever exported.
    exported: Vec<Exported>,
    /// The objects that are exported.
    pub(crate) table: Vec<Exported>,
    /// The objects that were withdrawn, each with the place of the event that withdrew it.
    pub(crate) withdrawn: Vec<(i64, u64)>,
}

// Written out, so that whoever owns one has one call at each exit, and not the drop of each field.
impl Drop for Server {
    fn drop(self) {
        let Server {
            config: _,
            now: _,
            events: _,
            units: _,
            returns,
            calls,
            exported,
            table,
            withdrawn,
        } = self;
        drop(returns);
        drop(calls);
        drop(exported);
        drop(table);
        drop(withdrawn);
    }
}

/// The identifier 0/N/0.
pub(crate) fn uid(time: i64) -> Uid {
    Uid {
        unique: 0,
        time,
        count: 0,
    }
}

/// The object of a number.
pub(crate) fn object(number: i64) -> ObjId {
    ObjId {
        number,
        space: uid(0),
    }
}

/// The lists of calls of so many clients without calls.
fn no_calls(alloc: Global, clients: u8) -> Result<Vec<Vec<Call>>, AllocError> {
    let mut calls = Vec::new(alloc);
    for _ in 0..clients {
        calls.push(Vec::new(alloc))?;
    }
    Ok(calls)
}

impl Server {
    /// The server that has exported the object that makes the others.
    pub(crate) fn new(
        alloc: Global,
        lease_ms: u64,
        ack_ms: u64,
        clients: u8,
    ) -> Result<Server, AllocError> {
        let config = SpaceConfig {
            lease_ms,
            ack_ms,
            uid: uid(0),
            stored: true,
        };
        let mut server = Server {
            config,
            now: 0,
            events: 0,
            units: 0,
            returns: Vec::new(alloc),
            calls: no_calls(alloc, clients)?,
            exported: Vec::new(alloc),
            table: Vec::new(alloc),
            withdrawn: Vec::new(alloc),
        };
        server.export(MAKER, 2, true)?;
        server.end_event(alloc, 0, 1)?;
        Ok(server)
    }

    fn export(&mut self, number: i64, kind: u32, pinned: bool) -> Result<(), AllocError> {
        let new = Exported {
            id: object(number),
            kind,
            pinned,
        };
        self.exported.push(new)?;
        self.table.push(new)?;
        Ok(())
    }

    /// Returns the number of returns that were made.
    pub(crate) fn return_count(&self) -> usize {
        self.returns.len()
    }

    /// The end of a client's lease, where that is later than the last event.
    pub(crate) fn lease_of(&self, client: u8) -> Option<u128> {
        let own = self.calls.get(usize::from(client))?;
        let end = lease_end(self.config.lease_ms, own.as_slice());
        if u128::from(self.now) < end {
            Some(end)
        } else {
            None
        }
    }

    /// Returns whether the return of an object awaits its acknowledgement.
    pub(crate) fn awaits(&self, object: ObjId) -> bool {
        let Ok(place) = usize::try_from(object.number.saturating_sub(MAKER + 1)) else {
            return false;
        };
        match self.returns.get(place) {
            Some((moment, is_acknowledged)) => {
                !*is_acknowledged && self.now < moment.saturating_add(self.config.ack_ms)
            }
            None => false,
        }
    }

    /// Returns the number of clients that hold an object.
    pub(crate) fn holders(&self, alloc: Global, object: ObjId) -> Result<u64, AllocError> {
        let mut count: u64 = 0;
        for own in self.calls.as_slice() {
            if holds(
                alloc,
                self.config.lease_ms,
                self.now,
                own.as_slice(),
                object,
            )? {
                count = count.saturating_add(1);
            }
        }
        Ok(count)
    }

    /// Counts an event of so many units, and withdraws what nothing keeps after it.
    fn end_event(&mut self, alloc: Global, moment: u64, units: u64) -> Result<(), AllocError> {
        self.now = self.now.max(moment);
        let place = self.events;
        self.events = self.events.saturating_add(1);
        self.units = self.units.saturating_add(units);
        let table = mem::replace(&mut self.table, Vec::new(alloc));
        for x in table.as_slice() {
            if x.pinned || self.awaits(x.id) || self.holders(alloc, x.id)? > 0 {
                self.table.push(*x)?;
            } else {
                self.withdrawn.push((x.id.number, place))?;
            }
        }
        Ok(())
    }

    /// A call of the first object begins, and returns a new object.
    pub(crate) fn make(&mut self, alloc: Global, moment: u64) -> Result<(), AllocError> {
        self.end_event(alloc, moment, 1)?;
        let made = i64::try_from(self.return_count()).unwrap_or(i64::MAX);
        self.returns.push((moment, false))?;
        self.export(made.saturating_add(MAKER + 1), 1, false)?;
        self.end_event(alloc, moment, 2)
    }

    /// A return is acknowledged, if it was made.
    pub(crate) fn acknowledge(
        &mut self,
        alloc: Global,
        moment: u64,
        make: u64,
    ) -> Result<(), AllocError> {
        if let Ok(place) = usize::try_from(make) {
            if let Some(made) = self.returns.get_mut(place) {
                made.1 = true;
            }
        }
        self.end_event(alloc, moment, 1)
    }

    /// Time passes.
    pub(crate) fn tick(&mut self, alloc: Global, moment: u64) -> Result<(), AllocError> {
        self.end_event(alloc, moment, 1)
    }

    /// A lease call of a client arrives that names so many objects. The duration that it is granted.
    pub(crate) fn take_call(
        &mut self,
        alloc: Global,
        client: u8,
        moment: u64,
        named: u64,
        ask: &Ask,
    ) -> Result<u64, AllocError> {
        let made = call_with(alloc, self.exported.as_slice(), moment, ask)?;
        if let (Some(call), Some(own)) = (made, self.calls.get_mut(usize::from(client))) {
            own.insert(0, call)?;
        }
        self.end_event(alloc, moment, named.saturating_add(1))?;
        Ok(match ask {
            Ask::Dirty {
                client: _,
                number: _,
                asked,
                objects: _,
            } => grant(self.config.lease_ms, *asked),
            _ => 0,
        })
    }
}

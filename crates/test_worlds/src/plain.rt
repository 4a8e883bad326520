//! A world by its definitions: its clients' logs, the calls that were sent with what their last deliveries were granted, and the server's lists.
use crate::client::Client;
use crate::server::{Server, object, uid};
use history::Ask;
use history::limits::{END_OF_TIME, MAX_DURATION_MS};
use lease_world::Step;
use object_ids::{ObjIds, Vmid};
use sequence::ByteList;
use std::alloc::{AllocError, Global};

/// The request of a sent call.
#[derive(Clone, Copy)]
enum Asking {
    /// A dirty call for this duration.
    Dirty(i64),
    /// A clean call of this object.
    Clean { object: i64, strong: bool },
}

/// A sent call.
#[derive(Clone, Copy)]
struct Sent {
    client: u8,
    number: i64,
    asking: Asking,
    /// The duration that its last delivery was granted.
    granted: Option<u64>,
}

/// Counts of what happened.
#[derive(Clone, Copy)]
pub(crate) struct Tally {
    /// Deliveries of a call that was delivered before.
    pub(crate) repeated: u64,
    /// Answers to dirty calls that came in time.
    pub(crate) good: u64,
    /// Answers to dirty calls that came too late, or after another one.
    pub(crate) late: u64,
}

/// The world.
pub(crate) struct Plain {
    pub(crate) moment: u64,
    pub(crate) clients: Vec<Client>,
    pub(crate) server: Server,
    sent: Vec<Sent>,
    pub(crate) tally: Tally,
}

// Written out, so that whoever owns one has one call at each exit, and not the drop of each field.
impl Drop for Plain {
    fn drop(self) {
        let Plain {
            moment: _,
            clients,
            server,
            sent,
            tally: _,
        } = self;
        drop(clients);
        drop(server);
        drop(sent);
    }
}

/// So many clients without calls, which ask for the configured lease.
fn fresh_clients(alloc: Global, lease_ms: u64, clients: u8) -> Result<Vec<Client>, AllocError> {
    let asked = i64::try_from(lease_ms).unwrap_or(i64::MAX);
    let mut all = Vec::new(alloc);
    for _ in 0..clients {
        all.push(Client::new(alloc, asked))?;
    }
    Ok(all)
}

/// The client of a number.
fn vmid(alloc: Global, client: u8) -> Result<Vmid, AllocError> {
    match Vmid::new(ByteList::from_slice(alloc, &[client])?, uid(0)) {
        Some(vmid) => Ok(vmid),
        None => Err(AllocError),
    }
}

fn ids(alloc: Global, numbers: &[i64]) -> Result<ObjIds, AllocError> {
    let mut ids = ObjIds::new(alloc);
    for number in numbers {
        ids.push(object(*number))?;
    }
    Ok(ids)
}

impl Plain {
    /// The world of no steps.
    pub(crate) fn new(
        alloc: Global,
        lease_ms: u64,
        ack_ms: u64,
        clients: u8,
    ) -> Result<Plain, AllocError> {
        Ok(Plain {
            moment: 0,
            clients: fresh_clients(alloc, lease_ms, clients)?,
            server: Server::new(alloc, lease_ms, ack_ms, clients)?,
            sent: Vec::new(alloc),
            tally: Tally {
                repeated: 0,
                good: 0,
                late: 0,
            },
        })
    }

    /// Returns the number of calls that were sent.
    pub(crate) fn sent_count(&self) -> usize {
        self.sent.len()
    }

    /// Returns the number of them that were never delivered.
    pub(crate) fn lost_count(&self) -> usize {
        self.sent.iter().filter(|m| m.granted.is_none()).count()
    }

    /// Takes a step. Whether it is one of this world; otherwise it changes nothing.
    pub(crate) fn take(&mut self, alloc: Global, step: Step) -> Result<bool, AllocError> {
        match step {
            Step::At { moment } => {
                let is_next = self.moment <= moment && moment < END_OF_TIME;
                self.moment = if is_next { moment } else { self.moment };
                Ok(is_next)
            }
            Step::Make => {
                self.server.make(alloc, self.moment)?;
                Ok(true)
            }
            Step::Ack { make } if make >= 1 << 63 => Ok(false),
            Step::Ack { make } => {
                self.server.acknowledge(alloc, self.moment, make)?;
                Ok(true)
            }
            Step::Tick => {
                self.server.tick(alloc, self.moment)?;
                Ok(true)
            }
            Step::Deliver { call } => self.deliver(alloc, call),
            Step::Answer { call } => self.answer(call),
            Step::Fail { call } => self.fail(call),
            Step::Register { client, number } => self.register(alloc, client, number),
            Step::Release { client, number } => self.release(alloc, client, number),
            Step::Due { client } => self.due(alloc, client),
            Step::Ask { client, asked } => Ok(self.set_asked(client, asked)),
        }
    }

    fn register(&mut self, alloc: Global, client: u8, number: i64) -> Result<bool, AllocError> {
        let Some(its) = self.clients.get_mut(usize::from(client)) else {
            return Ok(false);
        };
        its.register(alloc, number)?;
        Ok(true)
    }

    fn release(&mut self, alloc: Global, client: u8, number: i64) -> Result<bool, AllocError> {
        let Some(its) = self.clients.get_mut(usize::from(client)) else {
            return Ok(false);
        };
        let object = number;
        if let Some((number, strong)) = its.release(alloc, object)? {
            self.send(client, number, Asking::Clean { object, strong })?;
        }
        Ok(true)
    }

    fn due(&mut self, alloc: Global, client: u8) -> Result<bool, AllocError> {
        let Some(its) = self.clients.get_mut(usize::from(client)) else {
            return Ok(false);
        };
        let asked = its.asked;
        if let Some(number) = its.due(alloc, self.moment)? {
            self.send(client, number, Asking::Dirty(asked))?;
        }
        Ok(true)
    }

    fn send(&mut self, client: u8, number: i64, asking: Asking) -> Result<(), AllocError> {
        self.sent.push(Sent {
            client,
            number,
            asking,
            granted: None,
        })?;
        Ok(())
    }

    fn set_asked(&mut self, client: u8, asked: i64) -> bool {
        match self.clients.get_mut(usize::from(client)) {
            Some(its) if asked <= MAX_DURATION_MS as i64 => {
                its.asked = asked;
                true
            }
            _ => false,
        }
    }

    /// The sent call of a number.
    fn letter(&self, call: u64) -> Option<Sent> {
        let place = usize::try_from(call).ok()?;
        self.sent.get(place).copied()
    }

    fn deliver(&mut self, alloc: Global, call: u64) -> Result<bool, AllocError> {
        let Some(m) = self.letter(call) else {
            return Ok(false);
        };
        let named = self.objects_of(alloc, m)?;
        let ask = ask_of(alloc, m, named.as_slice())?;
        let count = named.len() as u64;
        let granted = self
            .server
            .take_call(alloc, m.client, self.moment, count, &ask)?;
        if m.granted.is_some() {
            self.tally.repeated = self.tally.repeated.saturating_add(1);
        }
        if let Some(m) = self.sent.get_mut(call as usize) {
            m.granted = Some(granted);
        }
        Ok(true)
    }

    /// The objects that a sent call names.
    fn objects_of(&self, alloc: Global, m: Sent) -> Result<Vec<i64>, AllocError> {
        let mut one = Vec::new(alloc);
        match (m.asking, self.clients.get(usize::from(m.client))) {
            (Asking::Dirty(_), Some(its)) => return its.objects_of(alloc, m.number),
            (Asking::Clean { object, strong: _ }, _) => one.push(object)?,
            _ => {}
        }
        Ok(one)
    }

    fn answer(&mut self, call: u64) -> Result<bool, AllocError> {
        let Some(m) = self.letter(call) else {
            return Ok(false);
        };
        let (Some(granted), Some(its)) = (m.granted, self.clients.get_mut(usize::from(m.client)))
        else {
            return Ok(false);
        };
        match m.asking {
            Asking::Clean {
                object: _,
                strong: _,
            } => its.fail(m.number)?,
            Asking::Dirty(_) => {
                let is_good = its.answer(m.number, granted, self.moment)?;
                self.tally.count(is_good);
            }
        }
        Ok(true)
    }

    fn fail(&mut self, call: u64) -> Result<bool, AllocError> {
        let Some(m) = self.letter(call) else {
            return Ok(false);
        };
        let Some(its) = self.clients.get_mut(usize::from(m.client)) else {
            return Ok(false);
        };
        its.fail(m.number)?;
        Ok(true)
    }
}

impl Tally {
    /// Counts an answer to a dirty call.
    fn count(&mut self, is_good: bool) {
        let counted = if is_good {
            &mut self.good
        } else {
            &mut self.late
        };
        *counted = counted.saturating_add(1);
    }
}

/// Returns the server's request of a sent call that names these objects.
fn ask_of(alloc: Global, m: Sent, named: &[i64]) -> Result<Ask, AllocError> {
    let client = vmid(alloc, m.client)?;
    let number = m.number;
    let objects = ids(alloc, named)?;
    Ok(match m.asking {
        Asking::Dirty(asked) => Ask::Dirty {
            client,
            number,
            asked,
            objects,
        },
        Asking::Clean { object: _, strong } => Ask::Clean {
            client,
            number,
            objects,
            strong,
        },
    })
}

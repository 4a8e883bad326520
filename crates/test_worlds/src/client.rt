//! A client's table by the plain log of what its calls did (Java RMI Specification, section 9.1). Nothing else is kept: each question goes through the log.
use std::alloc::{AllocError, Global};

/// The effect of a call of the table.
#[derive(Clone, Copy, PartialEq, Eq)]
enum Entry {
    /// A reference that was not there was registered, when this was the next number.
    Registered {
        object: i64,
        since: i64,
    },
    /// A reference was dropped.
    Dropped {
        object: i64,
    },
    /// The due call was asked for, before or after the end of the client's time.
    Asked {
        timely: bool,
    },
    /// A clean call was sent.
    Clean,
    /// A dirty call was sent.
    Dirty {
        number: i64,
        moment: u64,
    },
    /// The dirty call of this number names an object.
    Names {
        number: i64,
        object: i64,
    },
    /// The dirty call that was sent at this moment got a good answer, before or after the end of the client's time.
    Good {
        number: i64,
        moment: u64,
        granted: u64,
        timely: bool,
    },
    /// A dirty call under way failed.
    Failed {
        number: i64,
    },
    /// The call of this number is not under way any more, if it was.
    Closed {
        number: i64,
    },
}

/// A reference: its object, and the number that was the next one when it was registered.
#[derive(Clone, Copy)]
pub(crate) struct Ref {
    pub(crate) object: i64,
    since: i64,
}

/// A client: the duration for which its dirty calls ask, and its log, the oldest entry first.
pub(crate) struct Client {
    pub(crate) asked: i64,
    log: Vec<Entry>,
}

// Written out, so that whoever owns one has one call at each exit, and not the drop of each field.
impl Drop for Client {
    fn drop(self) {
        let Client { asked: _, log } = self;
        drop(log);
    }
}

// ---- what a log says

/// The number of the next call that is sent: how many were sent.
fn next_number(log: &[Entry]) -> i64 {
    let sent = log
        .iter()
        .filter(|entry| matches!(entry, Entry::Clean | Entry::Dirty { .. }))
        .count();
    i64::try_from(sent).unwrap_or(i64::MAX)
}

fn names(log: &[Entry], number: i64, object: i64) -> bool {
    let wanted = Entry::Names { number, object };
    log.iter().any(|entry| *entry == wanted)
}

fn is_closed(log: &[Entry], number: i64) -> bool {
    let wanted = Entry::Closed { number };
    log.iter().any(|entry| *entry == wanted)
}

/// The moment at which the dirty call under way of this number was sent, or none.
fn sending_of(log: &[Entry], wanted: i64) -> Option<u64> {
    for entry in log {
        if let Entry::Dirty { number, moment } = *entry {
            if number == wanted && !is_closed(log, number) {
                return Some(moment);
            }
        }
    }
    None
}

fn is_any_under_way(log: &[Entry]) -> bool {
    log.iter().any(|entry| match *entry {
        Entry::Dirty { number, moment: _ } => !is_closed(log, number),
        _ => false,
    })
}

/// Returns whether a dirty call under way asks for a reference since its registration.
fn is_asked_for(log: &[Entry], r: Ref) -> bool {
    log.iter().any(|entry| match *entry {
        Entry::Dirty { number, moment: _ } => {
            r.since <= number && names(log, number, r.object) && !is_closed(log, number)
        }
        _ => false,
    })
}

/// The end of the client's time: a good answer at or after it sets it, and an earlier one raises it.
fn until(log: &[Entry]) -> u64 {
    let mut until: u64 = 0;
    for entry in log {
        if let Entry::Good {
            number: _,
            moment,
            granted,
            timely,
        } = *entry
        {
            let end = moment.saturating_add(granted);
            until = if timely { until.max(end) } else { end };
        }
    }
    until
}

/// From when on the lease is to be renewed: half of the granted duration after the last good answer's dirty call was sent.
fn renewal(log: &[Entry]) -> u64 {
    let mut renewal: u64 = 0;
    for entry in log {
        if let Entry::Good {
            number: _,
            moment,
            granted,
            timely: _,
        } = *entry
        {
            renewal = moment.saturating_add(granted / 2);
        }
    }
    renewal
}

/// Returns whether a good answer confirmed a reference, and everything since came before the end of the client's time.
fn is_sure(log: &[Entry], r: Ref) -> bool {
    for entry in log.iter().rev() {
        match *entry {
            Entry::Good {
                number,
                moment: _,
                granted: _,
                timely,
            } => {
                if r.since <= number && names(log, number, r.object) {
                    return true;
                }
                if !timely {
                    return false;
                }
            }
            Entry::Asked { timely: false } => return false,
            _ => {}
        }
    }
    false
}

/// Returns whether a dirty call that names the object failed since its reference was registered.
fn is_strong(log: &[Entry], object: i64) -> bool {
    for entry in log.iter().rev() {
        match *entry {
            Entry::Failed { number } if names(log, number, object) => return true,
            Entry::Registered {
                object: new,
                since: _,
            } if new == object => return false,
            _ => {}
        }
    }
    false
}

/// The references, in the order of their registration.
fn refs_of(alloc: Global, log: &[Entry]) -> Result<Vec<Ref>, AllocError> {
    let mut refs = Vec::new(alloc);
    for (place, entry) in log.iter().enumerate() {
        if let Entry::Registered { object, since } = *entry {
            let end = Entry::Dropped { object };
            if !log.iter().skip(place).any(|later| *later == end) {
                refs.push(Ref { object, since })?;
            }
        }
    }
    Ok(refs)
}

/// The objects of the references that a dirty call is to name at a moment: each is not sure, or the client's time is over, and none asks for it yet.
fn wanted_objects(alloc: Global, log: &[Entry], now: u64) -> Result<Vec<i64>, AllocError> {
    let mut objects = Vec::new(alloc);
    let is_over = until(log) <= now;
    for r in refs_of(alloc, log)?.as_slice() {
        if (is_over || !is_sure(log, *r)) && !is_asked_for(log, *r) {
            objects.push(r.object)?;
        }
    }
    Ok(objects)
}

// ---- the calls

impl Client {
    /// A client without calls.
    pub(crate) fn new(alloc: Global, asked: i64) -> Client {
        Client {
            asked,
            log: Vec::new(alloc),
        }
    }

    /// The end of its time.
    pub(crate) fn until(&self) -> u64 {
        until(self.log.as_slice())
    }

    /// Its references, in the order of their registration.
    pub(crate) fn refs(&self, alloc: Global) -> Result<Vec<Ref>, AllocError> {
        refs_of(alloc, self.log.as_slice())
    }

    pub(crate) fn is_sure(&self, r: Ref) -> bool {
        is_sure(self.log.as_slice(), r)
    }

    fn has(&self, alloc: Global, object: i64) -> Result<bool, AllocError> {
        let refs = self.refs(alloc)?;
        Ok(refs.iter().any(|r| r.object == object))
    }

    pub(crate) fn register(&mut self, alloc: Global, object: i64) -> Result<(), AllocError> {
        if !self.has(alloc, object)? {
            let since = next_number(self.log.as_slice());
            self.log.push(Entry::Registered { object, since })?;
        }
        Ok(())
    }

    /// Drops a reference. The number of the clean call and whether that is strong, where the reference is there.
    pub(crate) fn release(
        &mut self,
        alloc: Global,
        object: i64,
    ) -> Result<Option<(i64, bool)>, AllocError> {
        if !self.has(alloc, object)? {
            return Ok(None);
        }
        let number = next_number(self.log.as_slice());
        let strong = is_strong(self.log.as_slice(), object);
        self.log.push(Entry::Dropped { object })?;
        self.log.push(Entry::Clean)?;
        Ok(Some((number, strong)))
    }

    /// Asks for what is due. The number of the dirty call, where one is.
    pub(crate) fn due(&mut self, alloc: Global, now: u64) -> Result<Option<i64>, AllocError> {
        let objects = wanted_objects(alloc, self.log.as_slice(), now)?;
        let renews = self.is_renewing(alloc, now)?;
        let number = next_number(self.log.as_slice());
        let timely = now < self.until();
        self.log.push(Entry::Asked { timely })?;
        if objects.is_empty() && !renews {
            return Ok(None);
        }
        let moment = now;
        self.log.push(Entry::Dirty { number, moment })?;
        for object in objects.as_slice() {
            let object = *object;
            self.log.push(Entry::Names { number, object })?;
        }
        Ok(Some(number))
    }

    /// There are references, the renewal is due, and no dirty call is under way.
    fn is_renewing(&self, alloc: Global, now: u64) -> Result<bool, AllocError> {
        let log = self.log.as_slice();
        let refs = refs_of(alloc, log)?;
        Ok(!refs.is_empty() && renewal(log) <= now && !is_any_under_way(log))
    }

    /// The objects that the dirty call of this number names.
    pub(crate) fn objects_of(&self, alloc: Global, wanted: i64) -> Result<Vec<i64>, AllocError> {
        let mut objects = Vec::new(alloc);
        for entry in self.log.as_slice() {
            if let Entry::Names { number, object } = *entry {
                if number == wanted {
                    objects.push(object)?;
                }
            }
        }
        Ok(objects)
    }

    /// The answer to a dirty call comes. It is good where the call is under way and less than the granted duration has passed since it was sent.
    pub(crate) fn answer(
        &mut self,
        number: i64,
        granted: u64,
        now: u64,
    ) -> Result<bool, AllocError> {
        let timely = now < self.until();
        let sending = sending_of(self.log.as_slice(), number);
        let mut is_good = false;
        if let Some(moment) = sending {
            if now < moment.saturating_add(granted) {
                is_good = true;
                self.log.push(Entry::Good {
                    number,
                    moment,
                    granted,
                    timely,
                })?;
            }
        }
        self.log.push(Entry::Closed { number })?;
        Ok(is_good)
    }

    /// A call is given up.
    pub(crate) fn fail(&mut self, number: i64) -> Result<(), AllocError> {
        if sending_of(self.log.as_slice(), number).is_some() {
            self.log.push(Entry::Failed { number })?;
        }
        self.log.push(Entry::Closed { number })?;
        Ok(())
    }
}

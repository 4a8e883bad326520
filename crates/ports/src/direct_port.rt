//! A port that holds its space.
ghost use Rattle.std.specs.Prelude.{◌≡◌, ◌^◌, ◌-◌, [], refl};
ghost use Rattle.object_ids.specs.declared.ids.ObjId.{ObjId};
ghost use Rattle.ports.specs.Ties.{IsTied, Leads};
ghost use Rattle.ports.specs.TieLaws.{leads_self, leads_on};

use crate::asked_log::{AskedLog, PortEntries};
use crate::port::Port;
use history::{Ask, Refused, Turn};
use object_ids::ObjId;
use space::{Asked, AskedEnd, Space};
use std::alloc::Global;

/// A port over a space and the number of its connection. The list has a parameter for its type, so that a
/// contract sees what the port left behind `space`.
#[derive(Drop)]
pub struct SpacePort<'a, L> {
    /// The space that answers.
    pub space: &'a mut Space,
    /// The number of the connection.
    pub by: u32,
    /// The entries since the port was made, with room for the ends of the calls that they show running.
    pub asked: L,
}

/// A port that hands each call to its space at once.
pub type DirectPort<'a> = SpacePort<'a, AskedLog>;

impl<'a> SpacePort<'a, AskedLog> {
    /// The port of a connection. Its entries begin with the next turn.
    pub fn new(alloc: Global, space: &'a mut Space, by: u32) -> DirectPort<'a>
        ensures same_reference { result.space.ghost_name ≡ space.entry.ghost_name }
        ensures values { (result.space.now ≡ space.old) × (result.by ≡ by)
            × (result.asked.items ≡ []) }
        ensures ready { IsTied result.by result.space.now result.asked.items result.asked.capacity }
    {
        SpacePort {
            space,
            by,
            asked: AskedLog::new(alloc),
        }
    }

    /// The port's entries.
    pub fn into_asked(self) -> PortEntries
        ensures items { result ≡ self.entry.asked.items }

        // The space behind the port, the first of its fields, is as the port left it.
        ensures left { self.exit.0.now ≡ self.entry.space.now }
    {
        let SpacePort {
            space: _,
            by: _,
            asked,
        } = self;
        PortEntries::of(asked)
    }
}

impl<'a> Port for SpacePort<'a, AskedLog> {
    ghost shown = { λ p. record { asked = p.asked.items; room = 2 ^ 64 - 1 } };

    ghost ready = { λ p. IsTied p.by p.space.now p.asked.items p.asked.capacity };

    ghost leads = { λ p q. (q.space.ghost_name ≡ p.space.ghost_name) × (q.by ≡ p.by)
        × Leads p.by p.space.now p.asked.items q.space.now q.asked.items };

    fn turn(&mut self, moment: u64, ask: Ask) -> Result<Turn, Refused> {
        if self.asked.reserve(self.asked.len() + 2).is_err() {
            // By hand, so that it is dropped in one call and not field by field.
            drop(ask);
            return Err(Refused::OutOfMemory);
        }
        match self.space.turn_noted(self.by, moment, ask) {
            Ok((answer, entry)) => {
                self.asked.push_reserved(entry);
                answer
            }
            Err(_refused) => Err(Refused::OutOfMemory),
        }
    }

    fn abandon(&mut self, moment: u64, object: ObjId) {
        let place = self.space.len();
        self.space.abandon(self.by, moment, object);
        self.asked.push_reserved(Asked {
            moment,
            ask: Ask::Abandon { object },
            end: AskedEnd::Abandoned(place),
        });
    }

    fn room(&self) -> u64 {
        u64::MAX
    }

    ghost stays = { λ p. (refl, refl, leads_self p.by p.space.now p.asked.items) };

    ghost goes_on = { λ p q r a b. leads_on p.by q.by r.by p.space.ghost_name q.space.ghost_name
        r.space.ghost_name p.space.now q.space.now r.space.now p.asked.items q.asked.items
        r.asked.items a b };
}

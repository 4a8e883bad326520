//! A port that holds its space, and whose entries exist in proofs alone.
ghost use Rattle.std.specs.Prelude.{◌≡◌, ◌^◌, ◌-◌, [], refl};
ghost use Rattle.ports.specs.Ties.{IsTiedTold, Leads};
ghost use Rattle.ports.specs.TieLaws.{leads_self, leads_on};

use crate::direct_port::SpacePort;
use crate::port::Port;
use crate::told_log::ToldLog;
use history::{Ask, Refused, Turn};
use object_ids::ObjId;
use space::Space;
use std::snapshot::Snapshot;

/// A port that hands each call to its space at once, and keeps nothing of it: its entries exist in proofs alone. It takes no memory of its
/// own, so each refusal is the space's.
pub type ToldPort<'a> = SpacePort<'a, ToldLog>;

impl<'a> SpacePort<'a, ToldLog> {
    /// The port of a connection. Its entries begin with the next turn.
    pub fn new_told(space: &'a mut Space, by: u32) -> ToldPort<'a>
        ensures same_reference { result.space.ghost_name ≡ space.entry.ghost_name }
        ensures values { (result.space.now ≡ space.old) × (result.by ≡ by) × (result.asked ≡ []) }
        ensures ready { IsTiedTold result.by result.space.now result.asked }
    {
        SpacePort {
            space,
            by,
            asked: ToldLog::new(),
        }
    }
}

impl<'a> Port for SpacePort<'a, ToldLog> {
    ghost shown = { λ p. record { asked = p.asked; room = 2 ^ 64 - 1 } };

    ghost ready = { λ p. IsTiedTold p.by p.space.now p.asked };

    ghost leads = { λ p q. (q.space.ghost_name ≡ p.space.ghost_name) × (q.by ≡ p.by)
        × Leads p.by p.space.now p.asked q.space.now q.asked };

    fn turn(&mut self, moment: u64, ask: Ask) -> Result<Turn, Refused> {
        let told = Snapshot::of(&ask);
        let answer = self.space.turn(self.by, moment, ask);
        self.asked.push_turn(moment, told, &answer);
        answer
    }

    fn abandon(&mut self, moment: u64, object: ObjId) {
        let place = self.space.len();
        self.space.abandon(self.by, moment, object);
        self.asked.push_abandoned(moment, object, place);
    }

    fn room(&self) -> u64 {
        u64::MAX
    }

    ghost stays = { λ p. (refl, refl, leads_self p.by p.space.now p.asked) };

    ghost goes_on = { λ p q r a b. leads_on p.by q.by r.by p.space.ghost_name q.space.ghost_name
        r.space.ghost_name p.space.now q.space.now r.space.now p.asked q.asked r.asked a b };
}

//! The steps of a world at its server.
ghost use Rattle.std.specs.Prelude.{◌≡◌, ◌≤◌, ◌<◌, ◌^◌, ◌∷◌, [], Ok, IfOk, IfErr, OnOk, OnErr, length};
ghost use Rattle.history.specs.declared.asks.Ask.TheVariants as asks;
ghost use Rattle.history.specs.declared.limits.TheConstants.{MAX_DURATION_MS};
ghost use Rattle.lease_world.specs.World.{uid, finish_by, ask_of, granted_in};
ghost use Rattle.lease_world.specs.Stands.{IsStep, IsTurned, IsReturned, IsAbandoned, MakerRuns, IsCause, refusal_at};
ghost use Rattle.lease_world.specs.declared.step.Step.TheVariants as steps;

use crate::fault::WorldFault;
use crate::ids::{client_of, object_of, uid_of};
use crate::sent_call::SentCall;
use crate::world::World;
use dgc_client::Plan;
use history::{Ask, Reply};
use object_ids::{ObjIds, Uid};
use sequence::Kinds;
use std::alloc::{AllocError, Global};

/// The duration that a reply grants, 0 where it grants none.
fn granted_in(reply: &Reply) -> u64
    ensures { result ≡ granted_in reply.now }
{
    match reply {
        Reply::Granted(duration) => *duration,
        _ => 0,
    }
}

/// The request of a sent call that arrives at the server.
fn ask_of(alloc: Global, sent: &SentCall) -> Result<Ask, AllocError>
    ensures { IfOk result (λ ask. ask ≡ ask_of sent.now) }
{
    let client = client_of(alloc, sent.client)?;
    match &sent.plan {
        Plan::Dirty { number, ids } => Ok(Ask::Dirty {
            client,
            number: *number,
            asked: sent.asked,
            objects: ids.copy(alloc)?,
        }),
        Plan::Clean {
            number,
            ids,
            strong,
        } => Ok(Ask::Clean {
            client,
            number: *number,
            objects: ids.copy(alloc)?,
            strong: *strong,
        }),
    }
}

/// The return of one new object of kind 1.
fn finish_by(alloc: Global, uid: Uid) -> Result<Ask, AllocError>
    ensures { IfOk result (λ ask. ask ≡ finish_by uid) }
{
    Ok(Ask::Finish {
        object: object_of(16),
        made: Kinds::from_slice(alloc, &[1])?,
        listed: ObjIds::new(alloc),
        uid,
    })
}

impl World {
    /// Makes a turn at the present moment, and returns the duration that it granted, 0 where it granted none.
    fn turn(&mut self, by: u32, ask: Ask) -> Result<u64, WorldFault>
        ensures ok { IfOk result (λ granted. IsTurned self.old by ask granted self.new) }
        ensures within { IfOk result (λ granted. granted ≤ MAX_DURATION_MS) }
        ensures refused { IfErr result (λ fault. IsCause fault (refusal_at self.old by ask)) }
        ensures err { OnErr result (self.new ≡ self.old) }
    {
        let turn = self.space.turn(by, self.moment, ask)?;
        Ok(granted_in(&turn.reply))
    }

    /// The identifier of the next return.
    fn next_return(&self) -> Result<Uid, WorldFault>
        ensures ok { IfOk result (λ u. u ≡ uid self.now.made) }
        ensures below { OnOk result (self.now.made < 2 ^ 63) }
        ensures err { OnErr result (2 ^ 63 ≤ self.now.made) }
        ensures events { length self.now.space.events < 2 ^ 64 }
    {
        let _count = self.space.len();
        match uid_of(self.made) {
            Some(uid) => Ok(uid),
            None => Err(WorldFault::BadStep),
        }
    }

    /// Ends the call that made a new object without an answer, if it runs.
    fn abandon(&mut self)
        ensures { MakerRuns self.old → IsAbandoned self.old self.new }
    {
        if 0 < self.space.running(0, object_of(16)) {
            self.space.abandon(0, self.moment, object_of(16));
        }
    }

    /// The server begins a call of its first object, and returns a new object.
    pub(crate) fn make(&mut self) -> Result<(), WorldFault>
        ensures { IsStep self.old steps.Make result self.new }
    {
        let uid = self.next_return()?;
        let finish = finish_by(self.alloc, uid)?;
        let begin = Ask::Begin {
            object: object_of(16),
        };
        let _granted = self.turn(0, begin)?;
        self.return_object(finish)
    }

    /// Makes the return that ends the call. A refusal ends it without an answer.
    fn return_object(&mut self, finish: Ask) -> Result<(), WorldFault>
        requires { self.old.made < 2 ^ 63 }
        ensures ok { OnOk result (IsReturned self.old finish self.new) }
        ensures refused { IfErr result (λ fault. IsCause fault (refusal_at self.old 0 finish)) }
        ensures err { OnErr result (MakerRuns self.old → IsAbandoned self.old self.new) }
    {
        match self.turn(0, finish) {
            Ok(_granted) => {
                self.made += 1;
                Ok(())
            }
            Err(fault) => {
                self.abandon();
                Err(fault)
            }
        }
    }

    /// A return arrived.
    pub(crate) fn acknowledge(&mut self, make: u64) -> Result<(), WorldFault>
        ensures { IsStep self.old (steps.Ack make) result self.new }
    {
        let Some(uid) = uid_of(make) else {
            return Err(WorldFault::BadStep);
        };
        let _granted = self.turn(0, Ask::Ack { uid })?;
        Ok(())
    }

    /// The server notes that time has passed.
    pub(crate) fn tick(&mut self) -> Result<(), WorldFault>
        ensures { IsStep self.old steps.Tick result self.new }
    {
        let _granted = self.turn(0, Ask::Tick)?;
        Ok(())
    }

    /// A sent call arrives.
    pub(crate) fn deliver(&mut self, call: u64) -> Result<(), WorldFault>
        ensures { IsStep self.old (steps.Deliver call) result self.new }
    {
        if call >= self.letters.len() as u64 {
            return Err(WorldFault::BadStep);
        }
        let at = call as usize;
        let by = u32::from(self.letters[at].call().client) + 1;
        let ask = ask_of(self.alloc, self.letters[at].call())?;
        let granted = self.turn(by, ask)?;
        self.letters[at].note_delivery(granted);
        Ok(())
    }
}

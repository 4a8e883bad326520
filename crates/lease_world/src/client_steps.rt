//! The steps of a world at its clients.
ghost use Rattle.std.specs.Prelude.{◌≡◌, ◌≤◌, ◌<◌, ◌++◌, ◌∷◌, [], length, vec_len, vec_capacity};
ghost use Rattle.lease_world.specs.Stands.{IsStep, IsMemberCall, with_letter};
ghost use Rattle.lease_world.specs.Tables.{call_of};
ghost use Rattle.lease_world.specs.declared.step.Step.TheVariants as steps;

use crate::fault::WorldFault;
use crate::ids::object_of;
use crate::letter::Letter;
use crate::member::{TableCall, call_table, hand_answer, hand_failure};
use crate::sent_call::SentCall;
use crate::world::World;
use dgc_client::Plan;
use history::limits::{END_OF_TIME, MAX_DURATION_MS};

/// Sends the lease call that was planned, if one was. There is room for it.
fn send(letters: &mut Vec<Letter>, client: u8, asked: i64, plan: Option<Plan>)
    requires { vec_len letters.old < vec_capacity letters.old }
    ensures { letters.new.items ≡ with_letter client asked plan letters.old.items }
{
    let Some(plan) = plan else {
        return;
    };
    let call = SentCall {
        client,
        asked,
        plan,
    };
    match letters.push(Letter::new(call)) {
        Ok(()) => {}
        Err(_) => {}
    }
}

impl World {
    /// A later moment comes.
    pub(crate) fn pass(&mut self, moment: u64) -> Result<(), WorldFault>
        ensures { IsStep self.old (steps.At moment) result self.new }
    {
        if moment < self.moment {
            return Err(WorldFault::BadStep);
        }
        if moment >= END_OF_TIME {
            return Err(WorldFault::BadStep);
        }
        self.moment = moment;
        Ok(())
    }

    /// A client's table is called, and the lease call that it plans is sent.
    fn call_member(&mut self, client: u8, call: TableCall) -> Result<(), WorldFault>
        ensures { IsMemberCall self.old client (call_of call self.old.moment) result self.new }
    {
        let at = usize::from(client);
        if at >= self.members.len() {
            return Err(WorldFault::BadStep);
        }
        self.letters.reserve(1)?;
        let asked = self.members[at].asked;
        let plan = call_table(&mut self.members[at].table, call, self.moment)?;
        send(&mut self.letters, client, asked, plan);
        Ok(())
    }

    /// A client registers a reference.
    pub(crate) fn register(&mut self, client: u8, number: i64) -> Result<(), WorldFault>
        ensures { IsStep self.old (steps.Register client number) result self.new }
    {
        self.call_member(client, TableCall::Register(object_of(number)))
    }

    /// A client drops a reference.
    pub(crate) fn release(&mut self, client: u8, number: i64) -> Result<(), WorldFault>
        ensures { IsStep self.old (steps.Release client number) result self.new }
    {
        self.call_member(client, TableCall::Release(object_of(number)))
    }

    /// A client sends what is due.
    pub(crate) fn send_due(&mut self, client: u8) -> Result<(), WorldFault>
        ensures { IsStep self.old (steps.Due client) result self.new }
    {
        self.call_member(client, TableCall::Due)
    }

    /// A client gets the answer to its call.
    pub(crate) fn answer(&mut self, call: u64) -> Result<(), WorldFault>
        ensures { IsStep self.old (steps.Answer call) result self.new }
    {
        if call >= self.letters.len() as u64 {
            return Err(WorldFault::BadStep);
        }
        let letter = &self.letters[call as usize];
        let Some(granted) = letter.grant() else {
            return Err(WorldFault::BadStep);
        };
        let at = usize::from(letter.call().client);
        if at >= self.members.len() {
            return Err(WorldFault::BadStep);
        }
        hand_answer(
            &mut self.members[at].table,
            &letter.call().plan,
            granted,
            self.moment,
        );
        Ok(())
    }

    /// A client gives its call up.
    pub(crate) fn fail(&mut self, call: u64) -> Result<(), WorldFault>
        ensures { IsStep self.old (steps.Fail call) result self.new }
    {
        if call >= self.letters.len() as u64 {
            return Err(WorldFault::BadStep);
        }
        let letter = &self.letters[call as usize];
        let at = usize::from(letter.call().client);
        if at >= self.members.len() {
            return Err(WorldFault::BadStep);
        }
        hand_failure(&mut self.members[at].table, &letter.call().plan);
        Ok(())
    }

    /// A client asks for another duration from now on.
    pub(crate) fn set_asked(&mut self, client: u8, asked: i64) -> Result<(), WorldFault>
        ensures { IsStep self.old (steps.Ask client asked) result self.new }
    {
        let at = usize::from(client);
        if at >= self.members.len() {
            return Err(WorldFault::BadStep);
        }
        if asked > MAX_DURATION_MS as i64 {
            return Err(WorldFault::BadStep);
        }
        self.members[at].asked = asked;
        Ok(())
    }
}

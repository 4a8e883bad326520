//! Lease calls of the collector (Java RMI Specification, 9.1).
ghost use Rattle.std.specs.Prelude.{◌≡◌, option_map, true, false, None, Some, Err};
ghost use Rattle.dgc_client.specs.Log.{number_of};
ghost use Rattle.java_shapes.specs.Ids.{lease_at};
ghost use Rattle.java_shapes.specs.ViewAnswers.{Views};
ghost use Rattle.rmi_client.specs.Ends.{is_end};
ghost use Rattle.rmi_client.specs.Replies.{reference_of, viewed};
ghost use Rattle.rmi_client.specs.Requests.{HearsSeen, Sees};
ghost use Rattle.rmi_client.specs.Leases.{IsPlanCall, grant_in, granted_in, granted_ms, want_of_plan};

use crate::end::{ClientEnd, is_end};
use crate::lease_calls::plan_call;
use crate::reply::{Answer, reference_of};
use crate::seen::shape_end;
use crate::session::Session;
use class_desc::TypeCode;
use dgc_client::{MAX_GRANTED_MS, Plan};
use java_shapes::{LeaseView, ShapeFault, as_lease};
use jrmp_frames::Body;
use object_ids::Vmid;
use std::alloc::Global;
use wire_io::{Sink, Source};

/// The lease that a body is.
fn lease_of(alloc: Global, body: &Body) -> Result<LeaseView, ShapeFault>
    ensures { Views result (viewed lease_at (reference_of body.now)) }
{
    match reference_of(body) {
        Some((graph, slot)) => as_lease(alloc, graph, slot),
        None => Err(ShapeFault::WrongShape),
    }
}

/// A granted duration, as it is taken.
fn granted_ms(value: &i64) -> u64
    ensures { result ≡ granted_ms value.now }
{
    if *value < 0 {
        0
    } else {
        (*value as u64).min(MAX_GRANTED_MS)
    }
}

/// The duration of a dirty call's Return, which ends at this position.
fn granted_in(alloc: Global, answer: &Answer, at: u64) -> Result<u64, ClientEnd>
    ensures { Sees at (granted_in answer.now) result }
{
    match lease_of(alloc, &answer.body) {
        Ok(lease) => Ok(granted_ms(&lease.value)),
        Err(fault) => Err(shape_end(fault, at)),
    }
}

/// Returns the number of a plan's lease call.
pub fn number_of_plan(plan: &Plan) -> i64
    ensures { result ≡ number_of plan.now }
{
    match plan {
        Plan::Dirty { number, ids: _ } => *number,
        Plan::Clean {
            number,
            ids: _,
            strong: _,
        } => *number,
    }
}

/// The type of a plan's result.
fn want_of_plan(plan: &Plan) -> Option<TypeCode>
    ensures { result ≡ want_of_plan plan.now }
{
    match plan {
        Plan::Dirty { number: _, ids: _ } => Some(TypeCode::Object),
        Plan::Clean {
            number: _,
            ids: _,
            strong: _,
        } => None,
    }
}

/// The duration of the Return of a plan's call, which ends at this position.
fn grant_in(alloc: Global, plan: &Plan, answer: &Answer, at: u64) -> Result<u64, ClientEnd>
    ensures { Sees at (grant_in plan.now answer.now) result }
{
    match plan {
        Plan::Dirty { number: _, ids: _ } => granted_in(alloc, answer, at),
        Plan::Clean {
            number: _,
            ids: _,
            strong: _,
        } => Ok(0),
    }
}

impl<S: Source, K: Sink> Session<S, K> {
    ghost use Rattle.rmi_client.specs.Sessions.{link_of, Asks};

    /// Sends a lease call of a client's table to the collector. A dirty call asks for a lease of so many milliseconds. The answer is the duration that
    /// is granted, in milliseconds. It is 0 for each grant below 0, and 2^40 for each above that. For a clean call the answer is 0.
    ///
    /// Each end comes as at [`Session::call`], and `BadReply` with `WrongShape` exactly where a dirty call's result is no lease. A plan of more than
    /// 16,384 objects may want more memory than there is.
    pub fn renew(&mut self, vmid: &Vmid, plan: &Plan, asked: i64) -> Result<u64, ClientEnd>
        ensures over { self.old.is_over ≡ true
            → (result ≡ Err ClientEnd.Over) × (self.new ≡ self.old) }
        ensures asks { self.old.is_over ≡ false
            → Asks (IsPlanCall vmid.now plan.now asked)
            (HearsSeen (grant_in plan.now) (want_of_plan plan.now)) (link_of S.half K.half self.old)
            (link_of S.half K.half self.new) result }
        ensures ended { self.new.is_over ≡ is_end result }
    {
        if self.is_over {
            return Err(ClientEnd::Over);
        }
        let result = self.ask_renew(vmid, plan, &asked);
        self.is_over = is_end(&result);
        result
    }

    /// Sends a lease call and reads its Return.
    fn ask_renew(&mut self, vmid: &Vmid, plan: &Plan, asked: &i64) -> Result<u64, ClientEnd>
        ensures { Asks (IsPlanCall vmid.now plan.now asked.now)
            (HearsSeen (grant_in plan.now) (want_of_plan plan.now)) (link_of S.half K.half self.old)
            (link_of S.half K.half self.new) result }
    {
        match plan_call(self.alloc, vmid, plan, asked) {
            Ok(bytes) => self.grant(bytes.as_slice(), plan),
            Err(_refused) => Err(ClientEnd::OutOfMemory),
        }
    }

    /// Sends bytes and reads the Return of a plan's call.
    fn grant(&mut self, bytes: &[u8], plan: &Plan) -> Result<u64, ClientEnd>
        ensures { Asks (λ sent. sent ≡ bytes.now)
            (HearsSeen (grant_in plan.now) (want_of_plan plan.now)) (link_of S.half K.half self.old)
            (link_of S.half K.half self.new) result }
    {
        match self.exchange(bytes, want_of_plan(plan)) {
            Ok(answer) => grant_in(self.alloc, plan, &answer, self.at),
            Err(end) => Err(end),
        }
    }
}

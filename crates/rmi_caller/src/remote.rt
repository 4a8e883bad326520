//! Remote objects that a client holds.
ghost use Rattle.std.specs.Prelude.{◌≡◌, ◌≢◌, ◌⊎◌, ◌∷◌, [], ℕ, ℤ, negsuc, List, false, true, Ok, Err, IfOk, IfErr, OnOk, OnErr};
ghost use Rattle.wire_io.specs.Wire.{Gave, Rose};
ghost use Rattle.dgc_client.specs.Log.{Registers, Drops, Dues};
ghost use Rattle.dgc_client.specs.StandsForLog.{StandsFor, ForEachLog, is_usable_after, until_told};
ghost use Rattle.object_ids.specs.Client.{Client as Holder};
ghost use Rattle.rmi_client.specs.Sessions.{link_of};
ghost use Rattle.rmi_caller.specs.Calls.{CallsMethod, CallsOrRefuses, IsMethodCall, IsPrepared};
ghost use Rattle.rmi_caller.specs.Finding.{AcksIf, AcksNot, Holds, RefersTo, TakesLease};
ghost use Rattle.java_shapes.specs.declared.ref_views.LiveRef.{LiveRef as LiveRefs};
ghost use Rattle.rmi_caller.specs.declared.argument.Argument.{Argument as Arguments};
ghost use Rattle.rmi_caller.specs.Leasing.{GaveFirst, Leases, LeasesAfter};
ghost use Rattle.rmi_caller.specs.declared.error.CallError.TheVariants as errors;

use crate::answer::{Answer, answer_of};
use crate::argument::Argument;
use crate::client::Client;
use crate::connect::{SessionOf, connect};
use crate::error::{CallError, error_of};
use crate::lookup::hold_found;
use crate::prepared::{Prepared, prepare};
use dgc_client::{ClientTable, MAX_GRANTED_MS, Plan};
use java_shapes::LiveRef;
use jrmp_frames::CallHead;
use object_ids::{ObjId, Vmid};
use rmi_client::number_of_plan;
use std::alloc::Global;
use wire_io::{Clock, Dialer};

/// For how many milliseconds a lease is asked for, as Java's clients do. The server may grant less.
const ASKED_MS: i64 = 600_000;

/// A remote object that a client holds, over a connection of its own to the object's server.
///
/// The server keeps the object until the lease ends by the clock of this connection, or is given up. So call [`Remote::renew`] from time to time.
pub struct Remote<D: Dialer> {
    pub(crate) alloc: Global,
    pub(crate) session: SessionOf<D>,
    clock: D::Ticks,
    table: ClientTable,
    object: ObjId,
}

// Written out, so that whoever owns one has one call at each exit, and not the drop of each field.
impl<D: Dialer> Drop for Remote<D> {
    fn drop(self) {
        let Remote {
            alloc: _,
            session,
            clock,
            table,
            object: _,
        } = self;
        drop(session);
        drop(clock);
        drop(table);
    }
}

impl<D: Dialer> Remote<D> {
    /// Dials the server of a reference, and takes a lease on its object there.
    pub(crate) fn hold(
        alloc: Global,
        dialer: &mut D,
        vmid: Vmid,
        reference: &LiveRef,
    ) -> Result<Remote<D>, CallError>
        ensures held { IfOk result
            (λ remote. Holds (D.dialing dialer.old) (D.dialing dialer.new) reference.now
            remote.object remote.table (link_of D.In.half D.Out.half remote.session)) }
        ensures same { OnOk result ((D.dialing dialer.new).faults ≡ (D.dialing dialer.old).faults) }
        ensures fault { result ≡ Err errors.DialFault
            → Rose (D.dialing dialer.old).faults (D.dialing dialer.new).faults }
    {
        let (session, clock) = connect(alloc, dialer, &reference.host, &reference.port)?;
        let mut remote = Remote {
            alloc,
            session,
            clock,
            table: ClientTable::new(alloc, vmid, i64::MIN),
            object: reference.id,
        };
        remote.register()?;
        Ok(remote)
    }

    /// Registers the object, and takes the lease.
    fn register(&mut self) -> Result<(), CallError>
        requires { self.old.session.is_over ≡ false }
        ensures leases { OnOk result ((client : Holder) (first : ℤ)
            → StandsFor client first self.old.table []
            → TakesLease client self.old.object self.new.table
            (link_of D.In.half D.Out.half self.old.session)
            (link_of D.In.half D.Out.half self.new.session)) }
        ensures object { self.new.object ≡ self.old.object }
        ensures apart { result ≢ Err errors.DialFault }
    {
        self.table.register(self.object)?;
        self.renew()
    }

    /// The object that is held.
    pub fn object(&self) -> ObjId
        ensures { result ≡ self.now.object }
    {
        self.object
    }

    /// The moment at which the lease ends, in milliseconds of the connection's clock. That of a link over TCP counts from the year 1970.
    pub fn until(&self) -> u64
        ensures { ForEachLog self.now.table (λ client first log. result ≡ until_told first log) }
    {
        self.table.until()
    }

    /// Calls a method of the object, and returns its result. The method is named by its text, as `add(J)J`; `javap -s` prints such texts.
    ///
    /// BadMethod, ArgumentCount, WrongArgument, BadArguments and Lapsed come before anything is sent.
    pub fn call(&mut self, method: &str, arguments: &[Argument<'_>]) -> Result<Answer, CallError>
        ensures calls { self.old.session.is_over ≡ false → CallsOrRefuses
            self.old.object method.now arguments.now
            (link_of D.In.half D.Out.half self.old.session)
            (link_of D.In.half D.Out.half self.new.session) result }
        ensures lapsed { (now : ℕ) × Gave (D.Ticks.given self.old.clock)
            (D.Ticks.given self.new.clock) (now ∷ [])
            × ForEachLog self.old.table (λ client first log.
            is_usable_after first log self.old.object now ≡ false → result ≡ Err errors.Lapsed) }
        ensures over { self.old.session.is_over ≡ true → self.new.session ≡ self.old.session }
        ensures table { self.new.table ≡ self.old.table }
        ensures object { self.new.object ≡ self.old.object }
    {
        self.check_lease()?;
        let prepared = prepare(self.alloc, method, arguments)?;
        self.ask(&prepared)
    }

    /// Reads the clock, and checks that the object is held then.
    fn check_lease(&mut self) -> Result<(), CallError>
        ensures lapsed { (now : ℕ) × Gave (D.Ticks.given self.old.clock)
            (D.Ticks.given self.new.clock) (now ∷ [])
            × ForEachLog self.old.table (λ client first log.
            is_usable_after first log self.old.object now ≡ false → result ≡ Err errors.Lapsed) }
        ensures err { IfErr result (λ error. error ≡ errors.Lapsed) }
        ensures session { self.new.session ≡ self.old.session }
        ensures table { self.new.table ≡ self.old.table }
        ensures object { self.new.object ≡ self.old.object }
        ensures alloc { self.new.alloc ≡ self.old.alloc }
    {
        let now = self.clock.now();
        if self.table.usable(self.object, now) {
            Ok(())
        } else {
            Err(CallError::Lapsed)
        }
    }

    /// Sends a call and reads its result.
    fn ask(&mut self, prepared: &Prepared) -> Result<Answer, CallError>
        ensures calls { (text : List ℕ) (arguments : List Arguments)
            → IsPrepared text arguments prepared.now
            → self.old.session.is_over ≡ false → CallsMethod self.old.object text arguments
            (link_of D.In.half D.Out.half self.old.session)
            (link_of D.In.half D.Out.half self.new.session) result }
        ensures over { self.old.session.is_over ≡ true → self.new.session ≡ self.old.session }
        ensures clock { self.new.clock ≡ self.old.clock }
        ensures table { self.new.table ≡ self.old.table }
        ensures object { self.new.object ≡ self.old.object }
    {
        let head = head_of(&self.object, prepared);
        match self
            .session
            .call(&head, &prepared.arguments, prepared.result)
        {
            Ok(answer) => Ok(answer_of(self.alloc, answer)),
            Err(end) => Err(error_of(self.alloc, end)),
        }
    }

    /// Renews the lease, if that is due: once half of the granted time is over.
    pub fn renew(&mut self) -> Result<(), CallError>
        ensures leases { (now : ℕ) × GaveFirst (D.Ticks.given self.old.clock)
            (D.Ticks.given self.new.clock) now
            × LeasesAfter (Dues now) self.old.table self.new.table self.old.session.is_over
            (link_of D.In.half D.Out.half self.old.session)
            (link_of D.In.half D.Out.half self.new.session) result }
        ensures object { self.new.object ≡ self.old.object }
        ensures apart { result ≢ Err errors.DialFault }
    {
        let now = self.clock.now();
        match self.table.due(now)? {
            Some(plan) => self.send(&plan),
            None => Ok(()),
        }
    }

    /// Gives the object up: a clean call tells the server. Later calls answer Lapsed.
    pub fn give_up(&mut self) -> Result<(), CallError>
        ensures leases { (now : ℕ) × GaveFirst (D.Ticks.given self.old.clock)
            (D.Ticks.given self.new.clock) now
            × LeasesAfter (Drops self.old.object now) self.old.table self.new.table
            self.old.session.is_over
            (link_of D.In.half D.Out.half self.old.session)
            (link_of D.In.half D.Out.half self.new.session) result }
        ensures object { self.new.object ≡ self.old.object }
    {
        let now = self.clock.now();
        match self.table.drop_ref(self.object, now)? {
            Some(plan) => self.send(&plan),
            None => Ok(()),
        }
    }

    /// Sends a lease call, and notes what became of it.
    fn send(&mut self, plan: &Plan) -> Result<(), CallError>
        ensures leases { ForEachLog self.old.table
            (λ client first log. Leases client first log plan.now
            self.new.table self.old.session.is_over
            (link_of D.In.half D.Out.half self.old.session)
            (link_of D.In.half D.Out.half self.new.session) result) }
        ensures gave { (more : List ℕ) × Gave (D.Ticks.given self.old.clock)
            (D.Ticks.given self.new.clock) more }
        ensures object { self.new.object ≡ self.old.object }
        ensures apart { result ≢ Err errors.DialFault }
    {
        match self.session.renew(self.table.vmid(), plan, ASKED_MS) {
            Ok(granted) => {
                let now = self.clock.now();
                self.table
                    .answered(number_of_plan(plan), granted.min(MAX_GRANTED_MS), now);
                Ok(())
            }
            Err(end) => {
                self.table.failed(number_of_plan(plan));
                Err(error_of(self.alloc, end))
            }
        }
    }

    /// Takes a lease on the remote object that a result of this one refers to, over a connection of its own, and acknowledges the result then: until
    /// that its server keeps the object by itself.
    pub fn follow(
        &mut self,
        client: &mut Client,
        dialer: &mut D,
        answer: &Answer,
    ) -> Result<Remote<D>, CallError>
        ensures held { IfOk result (λ remote. (reference : LiveRefs) × RefersTo answer.now reference
            × Holds (D.dialing dialer.old) (D.dialing dialer.new) reference
            remote.object remote.table (link_of D.In.half D.Out.half remote.session)
            × AcksIf reference.result answer.now.heard.uid
            (link_of D.In.half D.Out.half self.old.session)
            (link_of D.In.half D.Out.half self.new.session)) }
        ensures refused { OnErr result (AcksNot answer.now.heard.uid
            (link_of D.In.half D.Out.half self.old.session)
            (link_of D.In.half D.Out.half self.new.session)) }
        ensures table { self.new.table ≡ self.old.table }
        ensures object { self.new.object ≡ self.old.object }
        ensures fault { result ≡ Err errors.DialFault
            → Rose (D.dialing dialer.old).faults (D.dialing dialer.new).faults }
    {
        let reference = answer.reference()?;
        hold_found(client, dialer, &mut self.session, answer.uid(), &reference)
    }
}

/// The head of the call of an object's method, by its hash. The operation -1 says so.
fn head_of(object: &ObjId, prepared: &Prepared) -> CallHead
    ensures { result ≡ record { id = object.now; operation = negsuc 0; hash = prepared.now.hash } }
{
    CallHead {
        id: *object,
        operation: -1,
        hash: prepared.hash,
    }
}

//! A listener that is told to stop at the end of an input.
ghost use Rattle.std.specs.Prelude.{◌≡◌, ◌||◌, true, false, if◌then◌else◌, IfOk, IsErr, OnOk, Ok};
ghost use Rattle.input_end.specs.Ends.{listening_until};
ghost use Rattle.wire_io.specs.Links.{accepted_as, Listens, Accepts, Waits, Looks, IfCame, IsClosedLike};
ghost use Rattle.wire_io.specs.Wire.{AreNewHalves, next_count};
ghost use Rattle.wire_io.specs.declared.listener.Waited.TheVariants.{Told};

use crate::end::InputEnd;
use wire_io::{Failed, Link, Listener, Waited};

/// A listener over another one, which is also told to stop at the end of an input.
///
/// Each `wait` and each `is_told` first looks for the end. No other call looks. An `accept` after the end fails, and counts as one more fault beside those
/// of the listener inside.
#[derive(Drop)]
pub struct StoppedByInput<L, E> {
    listener: L,
    input: E,
    faults: u64,
    closed: bool,
    accepts: u64,
}

impl<L, E> StoppedByInput<L, E> {
    /// Makes the listener over this one that is told to stop at the end of this input. It takes no memory.
    pub fn new(listener: L, input: E) -> StoppedByInput<L, E>
        ensures listener { result.listener ≡ listener }
        ensures input { result.input ≡ input }
        ensures faults { result.faults ≡ 0 }
        ensures closed { result.closed ≡ false }
        ensures accepts { result.accepts ≡ 0 }
    {
        StoppedByInput {
            listener,
            input,
            faults: 0,
            closed: false,
            accepts: 0,
        }
    }

    /// Returns the listener inside.
    pub fn listener(&self) -> &L
        ensures { result.now ≡ self.now.listener }
    {
        &self.listener
    }

    /// Returns the input.
    pub fn input(&self) -> &E
        ensures { result.now ≡ self.now.input }
    {
        &self.input
    }
}

impl<L: Listener, E: InputEnd> Listener for StoppedByInput<L, E> {
    type In = L::In;

    type Out = L::Out;

    type Ticks = L::Ticks;

    ghost use Rattle.input_end.specs.Ends.{listening_until};

    ghost listening = { λ s.
        listening_until (E.seen s.input) s.faults s.closed s.accepts
        (L.listening s.listener) };

    /// Has the listener inside listen. It does not look at the input.
    fn listen(&mut self, address: &str, port: u16) -> Result<(), Failed>
        ensures listens { Listens
            (listening_until (E.seen self.old.input) self.old.faults self.old.closed self.old.accepts
            (L.listening self.old.listener))
            (listening_until (E.seen self.new.input) self.new.faults self.new.closed self.new.accepts
            (L.listening self.new.listener)) address.now port result }
        ensures accepted { (L.listening self.new.listener).accepted
            ≡ (L.listening self.old.listener).accepted }
        ensures told { (E.seen self.new.input || (L.listening self.new.listener).told)
            ≡ (E.seen self.old.input || (L.listening self.old.listener).told) }
        ensures input { self.new.input ≡ self.old.input }
        ensures closed { self.new.closed ≡ self.old.closed }
        ensures faults { self.new.faults ≡ self.old.faults }
        ensures inside { Listens (L.listening self.old.listener) (L.listening self.new.listener)
            address.now port result }
    {
        self.listener.listen(address, port)
    }

    /// Has the listener inside accept, unless a look has seen the end of the input.
    fn accept(&mut self) -> Result<Link<L::In, L::Out, L::Ticks>, Failed>
        ensures accepts { Accepts (accepted_as L.In.half L.Out.half L.Ticks.given)
            (listening_until (E.seen self.old.input) self.old.faults self.old.closed self.old.accepts
            (L.listening self.old.listener))
            (listening_until (E.seen self.new.input) self.new.faults self.new.closed self.new.accepts
            (L.listening self.new.listener)) result }
        ensures halves { IfOk result
            (λ link. AreNewHalves (L.In.half link.source) (L.Out.half link.sink)) }
        ensures ports { (L.listening self.new.listener).ports
            ≡ (L.listening self.old.listener).ports }
        ensures told { (E.seen self.new.input || (L.listening self.new.listener).told)
            ≡ (E.seen self.old.input || (L.listening self.old.listener).told) }
        ensures untold { OnOk result
            ((E.seen self.old.input || (L.listening self.old.listener).told) ≡ false) }
        ensures input { self.new.input ≡ self.old.input }
        ensures closed { self.new.closed ≡ self.old.closed }
        ensures faults { self.new.faults
            ≡ (if E.seen self.old.input then next_count self.old.faults else self.old.faults) }
        ensures ended { E.seen self.old.input ≡ true
            → IsErr result × (self.new.listener ≡ self.old.listener) }
        ensures inside { E.seen self.old.input ≡ false
            → Accepts (accepted_as L.In.half L.Out.half L.Ticks.given)
            (L.listening self.old.listener) (L.listening self.new.listener) result }
    {
        self.accepts = self.accepts.saturating_add(1);
        if self.input.was_seen() {
            self.faults = self.faults.saturating_add(1);
            return Err(Failed);
        }
        self.listener.accept()
    }

    /// Looks for the end of the input, once. At the end it closes the listener inside and answers Told. Else it has that listener wait.
    fn wait(&mut self) -> Result<Waited<Link<L::In, L::Out, L::Ticks>>, Failed>
        ensures waits { Waits (accepted_as L.In.half L.Out.half L.Ticks.given)
            (listening_until (E.seen self.old.input) self.old.faults self.old.closed self.old.accepts
            (L.listening self.old.listener))
            (listening_until (E.seen self.new.input) self.new.faults self.new.closed self.new.accepts
            (L.listening self.new.listener)) result }
        ensures halves { IfOk result (λ waited. IfCame waited
            (λ link. AreNewHalves (L.In.half link.source) (L.Out.half link.sink))) }
        ensures ports { (L.listening self.new.listener).ports
            ≡ (L.listening self.old.listener).ports }
        ensures looks_once { E.looked self.old.input self.new.input (E.seen self.new.input) }
        ensures faults { self.new.faults ≡ self.old.faults }
        ensures closed { self.new.closed ≡ self.old.closed }
        ensures ended { E.seen self.new.input ≡ true → (result ≡ Ok Told)
            × IsClosedLike (L.listening self.old.listener) (L.listening self.new.listener) }
        ensures inside { E.seen self.new.input ≡ false
            → Waits (accepted_as L.In.half L.Out.half L.Ticks.given)
            (L.listening self.old.listener) (L.listening self.new.listener) result }
    {
        if self.input.look() {
            self.listener.close();
            return Ok(Waited::Told);
        }
        self.listener.wait()
    }

    /// Looks for the end of the input, once. At the end it closes the listener inside. Else it has that listener look.
    fn is_told(&mut self) -> bool
        ensures looks { Looks
            (listening_until (E.seen self.old.input) self.old.faults self.old.closed self.old.accepts
            (L.listening self.old.listener))
            (listening_until (E.seen self.new.input) self.new.faults self.new.closed self.new.accepts
            (L.listening self.new.listener)) result }
        ensures looks_once { E.looked self.old.input self.new.input (E.seen self.new.input) }
        ensures faults { self.new.faults ≡ self.old.faults }
        ensures closed { self.new.closed ≡ self.old.closed }
        ensures ended { E.seen self.new.input ≡ true → (result ≡ true)
            × IsClosedLike (L.listening self.old.listener) (L.listening self.new.listener) }
        ensures inside { E.seen self.new.input ≡ false
            → Looks (L.listening self.old.listener) (L.listening self.new.listener) result }
    {
        if self.input.look() {
            self.listener.close();
            return true;
        }
        self.listener.is_told()
    }

    /// Closes the listener inside too.
    fn close(&mut self)
        ensures closed { listening_until (E.seen self.new.input) self.new.faults self.new.closed self.new.accepts
            (L.listening self.new.listener)
            ≡ record (listening_until (E.seen self.old.input) self.old.faults self.old.closed self.old.accepts
            (L.listening self.old.listener)) { closed = true } }
        ensures input { self.new.input ≡ self.old.input }
        ensures faults { self.new.faults ≡ self.old.faults }
        ensures inside { IsClosedLike (L.listening self.old.listener)
            (L.listening self.new.listener) }
    {
        self.listener.close();
        self.closed = true;
    }
}

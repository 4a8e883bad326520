//! Hosting a service: serving it until its listener is told to stop.
ghost use Rattle.std.specs.Prelude.{◌≡◌, ◌≤◌, false, IfOk, IfErr, OnOk, OnErr};
ghost use Rattle.conn_server.specs.Hosts.{ClosedLast};
ghost use Rattle.rmi_server.specs.Served.{GaveUpLate, IsHostedBy, RanToItsEnd, door_shown};
ghost use Rattle.rmi_server.specs.SiteFaults.{IsSound, RefusesSite};

use crate::crew::ServiceHand;
use crate::service::Service;
use crate::serving::{Extent, ServeFault, ServeParts, parts_of};
use crate::site::Site;
use conn_server::plan::LAST_NUMBER;
use conn_server::{DropsReports, HostBegin, Hosted, LinkReport, MAX_LIVE, Server};
use std::alloc::Global;
use std::sync::Wait;
use std::thread::Threads;
use wire_io::{Clock, Listener};

/// The listener of a hosted service, and the clock of its seconds without a connection.
#[derive(Drop)]
pub struct Door<L, Q> {
    /// Where connections come from. It listens already.
    pub listener: L,
    /// Gives the moments at which the server looks for leases that have ended.
    pub ticks: Q,
}

/// What a hosted service leaves: why it stopped (`stop`), and the server's objects (`space`). The reports of connections were dropped.
pub type HostedService<'t, R, S, I, O, T> = Hosted<
    I,
    O,
    T,
    DropsReports<LinkReport<I, O, T, ServiceHand<'t, R, S>>>,
    ServiceHand<'t, R, S>,
>;

/// Serves a service to the connections of a listener as [`crate::serve`] does, until the listener is told to stop. It also ends where the listener fails
/// for good, where there is no memory for a connection, and after 4,294,967,295 connections. It returns why (`stop`), and the server's objects.
///
/// It keeps neither what happened nor the reports of connections, so its memory grows with live connections and exported objects alone. It reads neither
/// `links` nor `stored` of the site. At most 8,192 connections are live at once; others wait. In seconds without a connection it looks for leases that
/// have ended at a moment of the door's clock. Live connections are served to their ends after a stop.
///
/// Each fault comes before a connection is accepted, as with [`crate::serve`]. For what holds of the result see [`Server::host`].
pub fn host<'t, R: Threads + Wait + Sync, L: Listener, Q: Clock, S: Service + Send>(
    rt: &'t R,
    alloc: Global,
    door: &mut Door<L, Q>,
    service: S,
    site: &Site<'_>,
) -> Result<HostedService<'t, R, S, L::In, L::Out, L::Ticks>, ServeFault>
    ensures hosts { IfOk result
        (IsHostedBy S.may_answer L.In.half L.Out.half L.Ticks.given site.now
        (door_shown L.listening Q.given door.old) (door_shown L.listening Q.given door.new)) }
    ensures unrecorded { IfOk result (λ hosted. hosted.whole ≡ false) }
    ensures sound { OnOk result (IsSound site.now) }
    ensures causes { IfErr result (RefusesSite site.now) }
    ensures err { OnErr result (door.new ≡ door.old) }
    ensures fault { IfOk result (GaveUpLate L.listening door.old.listener door.new.listener) }
    ensures all { IfOk result (RanToItsEnd L.listening door.old.listener door.new.listener) }
    ensures closed_last { OnOk result (ClosedLast L.listening
        (L.listening door.old.listener) (L.listening door.new.listener)) }
    ensures ports { (L.listening door.new.listener).ports
        ≡ (L.listening door.old.listener).ports }
    ensures faults { (L.listening door.old.listener).faults
        ≤ (L.listening door.new.listener).faults }
{
    let extent = Extent {
        count: LAST_NUMBER,
        stored: false,
    };
    let ServeParts {
        crew,
        plan,
        lock,
        root,
    } = parts_of(rt, alloc, service, site, extent)?;
    let server = Server {
        rt,
        alloc,
        crew: &crew,
        book: crew.book(),
    };
    let begin = HostBegin {
        root,
        taker: DropsReports::new(),
        record: false,
        most_live: MAX_LIVE,
    };
    Ok(server.host(&mut door.listener, &mut door.ticks, lock, begin, &plan))
}

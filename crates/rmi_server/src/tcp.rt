//! Serving over TCP.
ghost use Rattle.std.specs.Prelude.{◌≡◌, false, IfOk, IfErr, OnOk};
ghost use Rattle.history.specs.Steps.{IsLegal};
ghost use Rattle.rmi_server.specs.Served.{CollectedEach, KeepsTo};
ghost use Rattle.rmi_server.specs.SiteFaults.{IsSound, RefusesListening};

use crate::crew::ServiceHand;
use crate::hosting::{Door, HostedService, host};
use crate::service::Service;
use crate::serving::{ServeFault, serve};
use crate::site::Site;
use conn_server::{Report, random_seed};
use input_end::{DescriptorEnd, FlaggedEnd, StoppedByInput, descriptor_end};
use std::alloc::{AllocError, Global};
use std::io::Read;
use std::net::{Net, TcpListener, TcpStream};
use std::os::fd::AsRawFd;
use std::random::RandomSource;
use std::sync::atomic::AtomicBool;
use std::sync::{Arc, Wait};
use std::thread::Threads;
use std::time::Clock;
use wire_io::std_io::StdClock;
use wire_io::{Listener, TcpListen, TcpSink, TcpSource};

/// The report of what was served over TCP.
pub type TcpReport<'t, R, S> = Report<TcpSource, TcpSink, StdClock<&'t R>, ServiceHand<'t, R, S>>;

/// What a service leaves that was hosted over TCP.
pub type TcpHosted<'t, R, S> = HostedService<'t, R, S, TcpSource, TcpSink, StdClock<&'t R>>;

/// The address that a hosted service listens on, and the input at whose end it stops.
#[derive(Drop)]
pub struct TcpDoor<'d, I> {
    /// A name or a number of this machine, as `127.0.0.1`. `0.0.0.0` is every address. References name the site's host.
    pub address: &'d str,
    /// The input, which is read and dropped: `rt.stdin()`.
    pub input: I,
}

/// A listener over TCP that is told to stop at the end of an input. Its connections then give no more bytes.
type ListensUntil<'t, R, I> = StoppedByInput<TcpListen<&'t R>, FlaggedEnd<DescriptorEnd<I>>>;

/// Four random words, of which a server makes its identifiers. NoSeed comes where the system gives none.
pub fn seed(rt: &impl RandomSource) -> Result<[u64; 4], ServeFault>
    ensures { IfErr result (λ fault. fault ≡ ServeFault.NoSeed) }
{
    random_seed(rt).map_err(|_error| ServeFault::NoSeed)
}

/// Listens on the site's host and port, and serves a service as [`serve`] does. ListenFault comes where they cannot be listened on. For a service that runs
/// for good see [`host_tcp`].
///
/// The history that is left is legal, and at each of its events the collector kept what there was a reason to keep, and withdrew the rest.
pub fn serve_tcp<'t, R, S: Service + Send>(
    rt: &'t R,
    alloc: Global,
    service: S,
    site: &Site<'_>,
) -> Result<TcpReport<'t, R, S>, ServeFault>
where
    R: Threads + Wait + Sync + Clock + Net<Listener = TcpListener, Stream = TcpStream>,
    ensures config { IfOk result (λ report. KeepsTo site.now site.now.stored report.space) }
    ensures legal { IfOk result
        (λ report. IsLegal report.space.configuration report.space.events) }
    ensures collects { IfOk result (λ report. CollectedEach report.space) }
    ensures sound { OnOk result (IsSound site.now) }
    ensures causes { IfErr result (RefusesListening site.now) }
{
    let mut listener = TcpListen::new(alloc, rt);
    if listener.listen(site.host, site.port).is_err() {
        return Err(ServeFault::ListenFault);
    }
    serve(rt, alloc, &mut listener, service, site)
}

/// Makes the listener that is told to stop at the end of this input. It does not listen yet. It fails only where there is no memory.
fn listener_until<R, I>(
    rt: &R,
    alloc: Global,
    input: I,
) -> Result<ListensUntil<'_, R, I>, AllocError>
where
    R: Net<Listener = TcpListener, Stream = TcpStream> + Clock + Sync,
    I: Read + AsRawFd + Drop,
{
    let flag = Arc::new(alloc, AtomicBool::new(false))?;
    let listener = TcpListen::with_flag(alloc, rt, Arc::try_clone(&flag)?);
    let end = FlaggedEnd::new(descriptor_end(alloc, rt, input)?, flag);
    Ok(StoppedByInput::new(listener, end))
}

/// Listens on the door's address and the site's port, and serves a service as [`host`] does, until the door's input ends. Then it closes the port and
/// finishes the calls that run. Idle connections end within 7 seconds. ListenFault comes where the address and port cannot be listened on.
///
/// The server sees the end of a pipe, a socket or a terminal, and never that of a file or of `/dev/null`.
///
/// The history that is left is legal, and at each of its events the collector kept what there was a reason to keep, and withdrew the rest.
pub fn host_tcp<'t, R, S: Service + Send, I>(
    rt: &'t R,
    alloc: Global,
    service: S,
    site: &Site<'_>,
    door: TcpDoor<'_, I>,
) -> Result<TcpHosted<'t, R, S>, ServeFault>
where
    R: Threads + Wait + Sync + Clock + Net<Listener = TcpListener, Stream = TcpStream>,
    I: Read + AsRawFd + Drop,
    ensures config { IfOk result (λ hosted. KeepsTo site.now false hosted.space) }
    ensures legal { IfOk result
        (λ hosted. IsLegal hosted.space.configuration hosted.space.events) }
    ensures collects { IfOk result (λ hosted. CollectedEach hosted.space) }
    ensures sound { OnOk result (IsSound site.now) }
    ensures causes { IfErr result (RefusesListening site.now) }
{
    let TcpDoor { address, input } = door;
    let mut listener = listener_until(rt, alloc, input)?;
    if listener.listen(address, site.port).is_err() {
        return Err(ServeFault::ListenFault);
    }
    let mut open = Door {
        listener,
        ticks: StdClock::new(rt),
    };
    host(rt, alloc, &mut open, service, site)
}

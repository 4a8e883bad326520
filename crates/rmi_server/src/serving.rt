//! Serving a service over a listener.
ghost use Rattle.std.specs.Prelude.{◌≡◌, ◌≤◌, ◌↔◌, All, length, IfOk, IfErr, OnOk, OnErr, IsTrue};
ghost use Rattle.mod_utf.specs.Utf.{utf};
ghost use Rattle.wire_io.specs.declared.limits.TheConstants.{MAX_HOST_BYTES};
ghost use Rattle.turn_lock.specs.Handles.{IsFresh, opening_of};
ghost use Rattle.rmi_server.specs.Served.{GaveUp, IsOpening, IsServedBy, ServedAll};
ghost use Rattle.rmi_server.specs.SiteFaults.{AreSoundNames, HasKind, IsSound, RefusesSite};
ghost use Rattle.rmi_server.specs.Sites.{plan_of};

use crate::crew::{ServiceCrew, ServiceHand};
use crate::kinds::{KindFault, book_of};
use crate::opening::opened_space;
use crate::service::Service;
use crate::site::{Named, Site};
use conn_server::{Report, ServePlan, Server};
use history::Refused;
use std::alloc::{AllocError, Global};
use std::sync::Wait;
use std::thread::Threads;
use thiserror::Error;
use turn_lock::{Root, TurnLock};
use wire_io::Listener;

/// The reason why a site is not served.
#[derive(Clone, Copy, Debug, PartialEq, Eq, Error)]
pub enum ServeFault {
    /// Its kinds are refused.
    #[error("{fault}")]
    Kinds {
        /// Why they are.
        fault: KindFault,
    },
    /// A name is that of an object of no kind.
    #[error("a name of no kind")]
    NoKind,
    /// A name has more than 255 characters.
    #[error("name too long")]
    NameTooLong,
    /// Two objects have one name.
    #[error("two objects have one name")]
    NameTaken,
    /// There are more names than a registry has.
    #[error("too many names")]
    TooManyNames,
    /// The host takes more than 255 bytes.
    #[error("host too long")]
    HostTooLong,
    /// The system gives no random words.
    #[error("no random words")]
    NoSeed,
    /// The host and port cannot be listened on.
    #[error("listening failed")]
    ListenFault,
    /// There was no memory.
    #[error("out of memory")]
    OutOfMemory,
}

impl From<AllocError> for ServeFault {
    ghost use Rattle.rmi_server.specs.declared.serving.ServeFault.TheVariants.{OutOfMemory};

    ghost from_gives = { λ _ fault. fault ≡ OutOfMemory };

    fn from(_error: AllocError) -> ServeFault {
        ServeFault::OutOfMemory
    }
}

impl From<KindFault> for ServeFault {
    ghost use Rattle.rmi_server.specs.declared.serving.ServeFault.TheVariants.{Kinds};

    ghost from_gives = { λ fault serve_fault. serve_fault ≡ Kinds fault };

    fn from(fault: KindFault) -> ServeFault {
        ServeFault::Kinds { fault }
    }
}

impl From<Refused> for ServeFault {
    ghost use Rattle.rmi_server.specs.SiteFaults.{fault_of_refused};

    ghost from_gives = { λ refused fault. fault ≡ fault_of_refused refused };

    fn from(refused: Refused) -> ServeFault {
        match refused {
            Refused::OutOfMemory => ServeFault::OutOfMemory,
            _ => ServeFault::TooManyNames,
        }
    }
}

/// How many connections a server has at most, and whether it keeps all that happened.
#[derive(Clone, Copy)]
pub(crate) struct Extent {
    pub(crate) count: u32,
    pub(crate) stored: bool,
}

/// The parts that serve a site.
#[derive(Drop)]
pub(crate) struct ServeParts<'t, R: Wait + Sync, S: Service> {
    pub(crate) crew: ServiceCrew<'t, R, S>,
    pub(crate) plan: ServePlan,
    pub(crate) lock: TurnLock,
    pub(crate) root: Root,
}

/// Returns true if each name is that of an object of one of so many kinds.
fn have_kinds(names: &[Named<'_>], count: usize) -> bool
    ensures { IsTrue result ↔ All (HasKind count) names.now }
{
    names.iter().all(|named| (named.kind as usize) < count)
}

/// The crew of a service with a site's kinds.
fn crew_of<'t, R: Wait + Sync, S: Service>(
    rt: &'t R,
    alloc: Global,
    service: S,
    site: &Site<'_>,
) -> Result<ServiceCrew<'t, R, S>, ServeFault>
    ensures book { IfOk result (λ crew. crew.shared.value.book ≡ site.now.kinds) }
    ensures kinds { OnOk result (All (HasKind (length site.now.kinds)) site.now.names.now) }
    ensures causes { IfErr result (RefusesSite site.now) }
{
    if !have_kinds(site.names, site.kinds.len()) {
        return Err(ServeFault::NoKind);
    }
    let book = book_of(alloc, site.kinds.copy(alloc)?)?;
    Ok(ServiceCrew::new(rt, alloc, book, service)?)
}

/// Returns the space of a site in its lock, and the lock's root. `stored` says whether the space keeps all that happens.
fn lock_of(alloc: Global, site: &Site<'_>, stored: bool) -> Result<(TurnLock, Root), ServeFault>
    ensures fresh { IfOk result (λ made. IsFresh made.0 made.1) }
    ensures opening { IfOk result (λ made. IsOpening site.now stored (opening_of made.0)) }
    ensures names { OnOk result (AreSoundNames site.now.names.now) }
    ensures causes { IfErr result (RefusesSite site.now) }
{
    match TurnLock::around(alloc, opened_space(alloc, site, stored)?) {
        Ok(made) => Ok(made),
        Err(_space) => Err(ServeFault::OutOfMemory),
    }
}

/// Returns the parts that serve a site to this extent.
pub(crate) fn parts_of<'t, R: Wait + Sync, S: Service>(
    rt: &'t R,
    alloc: Global,
    service: S,
    site: &Site<'_>,
    extent: Extent,
) -> Result<ServeParts<'t, R, S>, ServeFault>
    ensures book { IfOk result (λ parts. parts.crew.shared.value.book ≡ site.now.kinds) }
    ensures plan { IfOk result (λ parts. parts.plan ≡ plan_of site.now extent.count) }
    ensures host { IfOk result (λ parts. length (utf parts.plan.host) ≤ MAX_HOST_BYTES) }
    ensures fresh { IfOk result (λ parts. IsFresh parts.lock parts.root) }
    ensures opening { IfOk result (λ parts. IsOpening site.now extent.stored
        (opening_of parts.lock)) }
    ensures sound { OnOk result (IsSound site.now) }
    ensures causes { IfErr result (RefusesSite site.now) }
{
    let crew = crew_of(rt, alloc, service, site)?;
    let plan = site.plan(alloc, extent.count)?;
    let (lock, root) = lock_of(alloc, site, extent.stored)?;
    Ok(ServeParts {
        crew,
        plan,
        lock,
        root,
    })
}

/// Serves a service to the connections of a listener, each in a thread of its own. It ends once it has served as many as the site says, the listener
/// fails, or there is no memory for a connection; [`crate::host`] serves without a count. It returns what became of each connection, and the server's objects. Clients find the site's names
/// in the registry at the same host and port. Each call is answered as [`Service::call`] answers it (`served`).
///
/// Each fault comes before a connection is accepted, and only where the site has it:
///
/// - Kinds: its kinds are refused, as [`book_of`] does.
/// - NoKind: an object is of no kind.
/// - NameTooLong: a name has more than 255 characters.
/// - NameTaken: two objects have one name.
/// - TooManyNames: there are more than 4,096 names.
/// - HostTooLong: the host has more than 255 bytes.
///
/// NoSeed and ListenFault never come. For what holds of the report see [`Server::serve`].
pub fn serve<'t, R: Threads + Wait + Sync, L: Listener, S: Service + Send>(
    rt: &'t R,
    alloc: Global,
    listener: &mut L,
    service: S,
    site: &Site<'_>,
) -> Result<Report<L::In, L::Out, L::Ticks, ServiceHand<'t, R, S>>, ServeFault>
    ensures served { IfOk result
        (IsServedBy S.may_answer L.In.half L.Out.half L.Ticks.given site.now
        (L.listening listener.old) (L.listening listener.new)) }
    ensures sound { OnOk result (IsSound site.now) }
    ensures causes { IfErr result (RefusesSite site.now) }
    ensures err { OnErr result (L.listening listener.new ≡ L.listening listener.old) }
    ensures fault { IfOk result (GaveUp L.listening listener.old listener.new) }
    ensures all { IfOk result (ServedAll L.listening listener.old listener.new) }
    ensures ports { (L.listening listener.new).ports ≡ (L.listening listener.old).ports }
    ensures faults { (L.listening listener.old).faults ≤ (L.listening listener.new).faults }
{
    let extent = Extent {
        count: u32::from(site.links),
        stored: site.stored,
    };
    let ServeParts {
        crew,
        plan,
        lock,
        root,
    } = parts_of(rt, alloc, service, site, extent)?;
    let server = Server {
        rt,
        alloc,
        crew: &crew,
        book: crew.book(),
    };
    Ok(server.serve(listener, lock, root, &plan))
}

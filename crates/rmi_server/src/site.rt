//! The site of a server: the objects that it offers, and its address.
ghost use Rattle.std.specs.Prelude.{◌≡◌, ◌≤◌, length, IfOk, IfErr};
ghost use Rattle.mod_utf.specs.Utf.{utf};
ghost use Rattle.wire_io.specs.declared.limits.TheConstants.{MAX_HOST_BYTES};
ghost use Rattle.rmi_server.specs.SiteFaults.{RefusesSite};
ghost use Rattle.rmi_server.specs.Sites.{config_of, plan_of};

use crate::serving::ServeFault;
use call_dispatch::KindList;
use conn_server::ServePlan;
use conn_server::plan::{low_half, moment_of};
use mod_utf::utf::{encoded_len, units_of_ascii};
use object_ids::Uid;
use space::SpaceConfig;
use std::alloc::Global;
use wire_io::MAX_HOST_BYTES;

/// The time for which a client holds an object without renewing its lease, in milliseconds: ten minutes, as Java's server has it.
const LEASE_MS: u64 = 600_000;

/// The time for which a returned reference awaits its acknowledgement, in milliseconds: five minutes.
const ACK_MS: u64 = 300_000;

/// An object that is there from the start and is never withdrawn.
#[derive(Clone, Copy, Debug)]
pub struct Named<'s> {
    /// Its name in the registry, of at most 255 characters, in ASCII.
    pub name: &'s str,
    /// The number of its kind.
    pub kind: u32,
}

impl<'s> Named<'s> {
    /// The object of a kind that has this name.
    pub fn new(name: &'s str, kind: u32) -> Named<'s>
        ensures name { result.name ≡ name.entry }
        ensures kind { result.kind ≡ kind }
    {
        Named { name, kind }
    }
}

/// The objects that a server offers, and its address.
#[derive(Drop)]
pub struct Site<'s> {
    /// The kinds of its objects. A kind's number is its place here, counted from 0.
    pub kinds: KindList,
    /// The objects that are there from the start: at most 4,096, and each under a name of its own. The first has the number 16, and each other the
    /// number after that of the one before it.
    pub names: &'s [Named<'s>],
    /// The host that it listens on, and that references name, in ASCII.
    pub host: &'s str,
    /// The port that it listens on, and that references name.
    pub port: u16,
    /// The number of connections that it serves before it ends. A service that is hosted does not end so: [`crate::host`] does not read this.
    pub links: u16,
    /// True where it keeps all that happened, so that its journal can be written. A service that is hosted never does: [`crate::host`] does not read
    /// this.
    pub stored: bool,
    /// Four random words, as [`crate::seed`] draws them. Identifiers are made of them.
    pub seed: [u64; 4],
}

impl Site<'_> {
    /// Returns the rules that the server's objects keep to. `stored` says whether all that happened is kept.
    pub(crate) fn config(&self, stored: bool) -> SpaceConfig
        ensures { result ≡ config_of self.now.seed stored }
    {
        SpaceConfig {
            lease_ms: LEASE_MS,
            ack_ms: ACK_MS,
            uid: Uid {
                unique: low_half(self.seed[2]),
                time: moment_of(self.seed[3]) as i64,
                count: 0,
            },
            stored,
        }
    }

    /// Returns the plan of a server of so many connections. HostTooLong comes where the host has more than 255 bytes.
    pub(crate) fn plan(&self, alloc: Global, count: u32) -> Result<ServePlan, ServeFault>
        ensures plan { IfOk result (λ plan. plan ≡ plan_of self.now count) }
        ensures host { IfOk result (λ plan. length (utf plan.host) ≤ MAX_HOST_BYTES) }
        ensures causes { IfErr result (RefusesSite self.now) }
    {
        let host = units_of_ascii(alloc, self.host.as_bytes())?;
        if encoded_len(&host) > MAX_HOST_BYTES {
            return Err(ServeFault::HostTooLong);
        }
        Ok(ServePlan {
            count,
            host,
            port: i32::from(self.port),
            binding: false,
            seed: self.seed,
        })
    }
}

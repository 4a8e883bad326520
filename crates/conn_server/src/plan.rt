//! The plan of a server, and the setup of each connection.
ghost use Rattle.std.specs.Prelude.{◌≡◌, ◌≤◌, ◌<◌, ◌%◌, pos, ◌<ℤ◌, length, List, IfOk};
ghost use Rattle.mod_utf.specs.Utf.{utf};
ghost use Rattle.wire_io.specs.declared.limits.TheConstants.{MAX_HOST_BYTES};
ghost use Rattle.system_objects.specs.Terms.{terms_of};
ghost use Rattle.system_objects.specs.declared.book.Kind.{Kind};
ghost use Rattle.system_objects.specs.declared.setup.TheConstants.{DRAWS_BEGIN_BELOW};
ghost use Rattle.conn_server.specs.Plans.{low_signed, link_terms};

use call_dispatch::{DRAWS_BEGIN_BELOW, Setup};
use object_ids::UidDraw;
use sequence::Units;
use std::alloc::{AllocError, Global};
use std::io;
use std::random::RandomSource;
use wire_io::Link;

/// The most connections that `Server::serve` accepts.
pub const MAX_LINKS: u32 = 65_535;

/// The greatest number of a connection: an event's has 32 bits, and 0 is the server's own.
pub const LAST_NUMBER: u32 = 4_294_967_295;

/// The plan that a server is given before it serves.
#[derive(Drop)]
pub struct ServePlan {
    /// The number of connections that are accepted. `Server::serve` wants at most [`MAX_LINKS`], and `Server::host` any number.
    pub count: u32,
    /// The server's own host, as references name it.
    pub host: Units,
    /// The server's own port, as references name it.
    pub port: i32,
    /// True where clients may bind names.
    pub binding: bool,
    /// Words by chance, of which the identifiers of each connection are made.
    pub seed: [u64; 4],
}

/// A random word.
fn word(rt: &impl RandomSource) -> io::Result<u64> {
    let mut bytes = [0; 8];
    rt.fill_bytes(&mut bytes)?;
    Ok(u64::from_be_bytes(bytes))
}

/// Returns four random words, of which a server makes its identifiers. It fails where the system gives none.
pub fn random_seed(rt: &impl RandomSource) -> io::Result<[u64; 4]> {
    Ok([word(rt)?, word(rt)?, word(rt)?, word(rt)?])
}

/// Returns the setup of connection `by`, which comes over this link. It fails only where there is no memory.
pub fn setup_for<I, O, T>(
    alloc: Global,
    plan: &ServePlan,
    by: u32,
    link: &Link<I, O, T>,
) -> Result<Setup, AllocError>
    requires host { length (utf plan.now.host) ≤ MAX_HOST_BYTES }
    ensures terms { IfOk result (λ setup. (kinds : List Kind)
        → terms_of kinds setup ≡ link_terms kinds plan.now by link.now.host link.now.port) }
    ensures peer_host { IfOk result (λ setup. length (utf setup.peer_host) ≤ MAX_HOST_BYTES) }
    ensures host { IfOk result (λ setup. length (utf setup.host) ≤ MAX_HOST_BYTES) }
    ensures time { IfOk result (λ setup. setup.draw.time <ℤ pos DRAWS_BEGIN_BELOW) }
    ensures drawn { IfOk result (λ setup. setup.draw.drawn ≡ 0) }
{
    let peer_host = link.host.copy(alloc)?;
    let host = plan.host.copy(alloc)?;
    Ok(Setup {
        by,
        peer_host,
        peer_port: link.port,
        host,
        port: plan.port,
        binding: plan.binding,
        draw: UidDraw::new(
            low_half(plan.seed[0].wrapping_add(u64::from(by))),
            moment_of(plan.seed[1]) as i64,
        ),
        mark: plan.seed[2].to_be_bytes(),
    })
}

/// The moment that a word of a seed gives, in milliseconds.
pub fn moment_of(word: u64) -> u64
    ensures { result ≡ word % DRAWS_BEGIN_BELOW }
{
    word % DRAWS_BEGIN_BELOW
}

/// The low 32 bits of a word, as a signed number.
pub fn low_half(word: u64) -> i32
    ensures { result ≡ low_signed word }
{
    ((word % (1 << 32)) as u32).cast_signed()
}

//! The sample space that connections are served over.
ghost use Rattle.std.specs.Prelude.{◌≡◌, IfOk};
ghost use Rattle.rmi_cli.specs.Opening.{served_space, served_opening, hosted_space, hosted_opening};
ghost use Rattle.rmi_words.specs.Options.{IsInRange};

use conn_server::plan::{low_half, moment_of};
use object_ids::Uid;
use rmi_words::LeaseOptions;
use sample_app::sample_space;
use space::{Space, SpaceConfig};
use std::alloc::{AllocError, Global};

/// The sample space that the seed and the options give. It is refused only for want of memory.
pub(crate) fn opened_space(
    alloc: Global,
    seed: &[u64; 4],
    options: LeaseOptions,
) -> Result<Space, AllocError>
    requires { IsInRange options }
    ensures { IfOk result (λ space. space ≡ served_opening seed.now options) }
{
    match sample_space(alloc, &config_of(seed, options)) {
        Ok(space) => Ok(space),
        Err(_refused) => Err(AllocError),
    }
}

/// Returns the same space, but that it does not keep its events. It is refused only for want of memory.
pub(crate) fn erased_space(
    alloc: Global,
    seed: &[u64; 4],
    options: LeaseOptions,
) -> Result<Space, AllocError>
    requires { IsInRange options }
    ensures { IfOk result (λ space. space ≡ hosted_opening seed.now options) }
{
    let mut config = config_of(seed, options);
    config.stored = false;
    match sample_space(alloc, &config) {
        Ok(space) => Ok(space),
        Err(_refused) => Err(AllocError),
    }
}

/// Returns the identifier of the space.
pub(crate) fn space_uid(seed: &[u64; 4], options: LeaseOptions) -> Uid
    ensures { result ≡ (hosted_space seed.now options).uid }
{
    config_of(seed, options).uid
}

/// Returns the configuration of the space.
fn config_of(seed: &[u64; 4], options: LeaseOptions) -> SpaceConfig
    ensures { result ≡ served_space seed.now options }
{
    SpaceConfig {
        lease_ms: options.lease_ms,
        ack_ms: options.ack_ms,
        uid: Uid {
            unique: low_half(seed[2]),
            time: moment_of(seed[3]) as i64,
            count: 0,
        },
        stored: true,
    }
}

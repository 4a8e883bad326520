//! The space of the tests.
use history::SpaceConfig;
use object_ids::{ObjId, Uid};

/// The identifier of the space.
pub const SPACE: Uid = Uid {
    unique: 7,
    time: 9,
    count: 0,
};

/// The settings of the space.
pub const CONFIG: SpaceConfig = SpaceConfig {
    lease_ms: 600_000,
    ack_ms: 300_000,
    uid: SPACE,
    stored: true,
};

/// The first object that the space exports.
pub const FIRST: ObjId = ObjId {
    number: 16,
    space: SPACE,
};

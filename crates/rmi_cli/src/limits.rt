//! The limits are what the README and the formats' documents say: a clause moves with its constant, and so these are pinned here.
use crate::class_input::OUTLINE_BYTES;
use crate::journal_input::JOURNAL_BYTES;
use conn_server::plan::MAX_LINKS;
use history::limits::{
    END_OF_TIME, MAX_AWAITING, MAX_CLIENTS, MAX_DURATION_MS, MAX_ERASED_UNITS, MAX_EXPORTS,
    MAX_HISTORY_UNITS, MAX_NAME_UNITS, MAX_NAMES, MAX_PAIRS, MAX_RUNNING_CALLS,
};
use object_ids::MAX_ADDRESS_BYTES;
use ser_values::limits::{LEVELS, NODES, PARTS};
use suid_calc::MAX_FIELDS;
use wire_io::MAX_HOST_BYTES;
use wire_io::whole::READ_BLOCK;

const _: () = prove!(JOURNAL_BYTES == 268_435_456 && READ_BLOCK == 4_096);

const _: () = prove!(OUTLINE_BYTES == 1_048_576 && MAX_FIELDS == 32_767);

const _: () = prove!(MAX_LINKS == 65_535);

const _: () = prove!(MAX_EXPORTS == 65_536 && MAX_AWAITING == 65_536 && MAX_CLIENTS == 65_536);

const _: () = prove!(MAX_PAIRS == 262_144 && MAX_NAMES == 4_096 && MAX_HISTORY_UNITS == 4_194_304);

const _: () = prove!(MAX_ERASED_UNITS == 1 << 61 && MAX_RUNNING_CALLS == 4_194_304);

const _: () = prove!(MAX_DURATION_MS == 1 << 40 && END_OF_TIME == 1 << 62);

const _: () = prove!(MAX_NAME_UNITS == 255 && MAX_ADDRESS_BYTES == 255 && MAX_HOST_BYTES == 255);

const _: () = prove!(NODES == 65_536 && PARTS == 1 << 20 && LEVELS == 200);

//! Rows on plain runs, numbers and deadlines, each with what a loop over single items gives.
use lane_kernels::{be_words32, be_words64, first_due, plain_run};
use std::process::Abort;

/// Stops where this does not hold, and says what it is.
fn must(rt: &impl Abort, holds: bool, what: &str) {
    assert!(rt; holds, "{what}");
}

/// The number of items of the longest lists: two chunks of each kernel, and some more.
const LONGEST: usize = 70;

#[test]
fn forty_plain_bytes_before_another_are_a_run(rt: HostRuntime) {
    let mut bytes = [0x61; 41];
    bytes[40] = 0x80;
    must(&rt, plain_run(&bytes) == 40, "forty");
    must(&rt, plain_run(&[]) == 0, "none");
    must(&rt, plain_run(&[0x7F, 0x01, 0x00]) == 2, "a zero ends it");
}

#[test]
fn a_run_ends_at_each_place(rt: HostRuntime) {
    for place in 0..LONGEST {
        let mut bytes = [0x61; LONGEST];
        bytes[place] = 0x00;
        must(&rt, plain_run(&bytes) == place, "a zero");
        bytes[place] = 0xFF;
        must(&rt, plain_run(&bytes) == place, "FF");
        must(&rt, plain_run(&bytes[..place]) == place, "the end");
    }
}

#[test]
fn words_are_signed_and_their_highest_byte_comes_first(rt: HostRuntime) {
    let bytes = [
        0xFF, 0xFF, 0xFF, 0xFF, 0xFF, 0xFF, 0xFF, 0xFE, 0, 0, 0, 0, 0, 0, 0, 1,
    ];
    let mut longs = [0; 2];
    be_words64(&bytes, &mut longs);
    must(&rt, longs[0] == -2 && longs[1] == 1, "two longs");
    let mut ints = [0; 4];
    be_words32(&bytes, &mut ints);
    must(&rt, ints[0] == -1 && ints[1] == -2, "two ints");
    must(&rt, ints[2] == 0 && ints[3] == 1, "two more");
}

#[test]
fn words_behind_the_last_chunk_are_read(rt: HostRuntime) {
    let mut bytes = [0; 20];
    bytes[16] = 0x80;
    bytes[19] = 0x05;
    let mut ints = [7; 5];
    be_words32(&bytes, &mut ints);
    must(&rt, ints[3] == 0 && ints[4] == -2147483643, "the fifth");
    let mut bytes = [0; 24];
    bytes[17] = 0x01;
    let mut longs = [7; 3];
    be_words64(&bytes, &mut longs);
    must(
        &rt,
        longs[1] == 0 && longs[2] == 281474976710656,
        "the third",
    );
    be_words64(&[], &mut []);
}

#[test]
fn the_first_deadline_that_has_passed_is_found(rt: HostRuntime) {
    must(&rt, first_due(&[], 0).is_none(), "none");
    let mut deadlines = [9; 34];
    deadlines[33] = 5;
    must(&rt, first_due(&deadlines, 5) == Some(33), "the last");
    must(&rt, first_due(&deadlines, 4).is_none(), "all are later");
    must(&rt, first_due(&deadlines, 9) == Some(0), "the first");
}

#[test]
fn a_deadline_is_found_at_each_place(rt: HostRuntime) {
    for place in 0..LONGEST {
        let mut deadlines = [u64::MAX; LONGEST];
        deadlines[place] = 1 << 63;
        must(&rt, first_due(&deadlines, 1 << 63) == Some(place), "due");
        must(&rt, first_due(&deadlines, (1 << 63) - 1).is_none(), "later");
    }
}

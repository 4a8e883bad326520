//! The output of `drill` and `journal`.
use crate::hosts::{Outside, Runs, check_words, copied, cut_by, host_of, must, run_line};
use crate::texts::cut;
use journal::split_line;
use sequence::ByteList;
use std::alloc::Global;

/// Words, what they print, the status and the line, and the indices of the writes that fail.
const DRILLS: &str =
    "drill 1 1 | =events_2_units_3_now_4272~objects_1_clients_1_pairs_0_awaiting_0_names_0_withdrawn_0~ | 0 |
drill 9223372036854775807 3 | =events_4_units_5_now_4220~objects_1_clients_0_pairs_0_awaiting_0_names_0_withdrawn_0~ | 0 |
journal 1 1 | =space_600000_300000_0_0~0_0_open_2_pinned~1_4272_dirty_00@0/0/0_0_600000_17~ | 0 |
journal 5 9 | =space_600000_300000_0_0~0_0_open_2_pinned~1_2521_ack_0/0/0~1_4690_clean_01@0/0/0_1_strong_17~1_5672_clean_00@0/0/0_2_weak_17~ =1_7573_dirty_01@0/0/0_3_600000_-~1_10646_begin_16~1_10646_finish_16_1_-_0/4/0~1_16437_dirty_00@0/0/0_5_600000_17~1_16973_dirty_01@0/0/0_6_600000_17~ =1_20358_dirty_01@0/0/0_7_600000_17~1_21057_dirty_00@0/0/0_-4_600000_17~ | 0 |
journal 9223372036854775807 1 | =space_600000_300000_0_0~0_0_open_2_pinned~1_2147_tick~ | 0 |
drill 1 1 | | 4 write fault | 0
journal 1 1 | | 4 write fault | 0";

/// Runs a line of a table without input: words, what they print, the status and the line, and the indices of the writes that fail.
pub(crate) fn check_printed(rt: &impl Runs, alloc: Global, line: &str) {
    let (words, rest) = cut(line, '|');
    let (output, rest) = cut(rest, '|');
    let (told, failing_writes) = cut(rest, '|');
    let outside = Outside {
        cut: "-",
        failing_reads: "",
        failing_writes,
        moments: "",
    };
    let _left = check_words(rt, alloc, words, "", outside, output, told);
}

#[test]
fn each_drill_is_printed(rt: HostRuntime) {
    for line in DRILLS.split('\n') {
        check_printed(&rt, rt.alloc(), line);
    }
}

/// Returns what these words print over an input.
pub(crate) fn printed(rt: &impl Runs, alloc: Global, words: &str, input: &[u8]) -> ByteList {
    let mut host = host_of(rt, alloc, input, cut_by("-"));
    let status = run_line(rt, alloc, words, &mut host);
    must(rt, status == 0, words);
    copied(rt, alloc, host.output.bytes())
}

/// The first line.
fn first_line(text: &[u8]) -> &[u8] {
    match split_line(text) {
        Some((line, _rest)) => line,
        None => &[],
    }
}

/// Returns what `replay` prints of the journal that these words print.
fn replayed(rt: &impl Runs, alloc: Global, words: &str) -> ByteList {
    let journal = printed(rt, alloc, words, &[]);
    printed(rt, alloc, "replay", journal.as_slice())
}

/// Looks whether words print the same twice.
fn check_again(rt: &impl Runs, alloc: Global, words: &str) {
    let once = printed(rt, alloc, words, &[]);
    let again = printed(rt, alloc, words, &[]);
    must(rt, once.as_slice() == again.as_slice(), words);
}

/// Looks whether a drill's summary begins as the outline of its journal.
fn check_replayed(rt: &impl Runs, alloc: Global, drill: &str, journal: &str) {
    let summary = printed(rt, alloc, drill, &[]);
    let outline = replayed(rt, alloc, journal);
    let line = first_line(summary.as_slice());
    must(rt, !line.is_empty(), drill);
    must(rt, first_line(outline.as_slice()) == line, drill);
}

/// Drills, each with its journal.
const LONG: &str = "drill 1 1000 | journal 1 1000
drill 1 100000 | journal 1 100000";

#[test]
fn a_journal_is_replayed_to_the_first_line_of_its_summary(rt: HostRuntime) {
    for line in LONG.split('\n') {
        let (drill, journal) = cut(line, '|');
        check_again(&rt, rt.alloc(), drill);
        check_replayed(&rt, rt.alloc(), drill, journal);
    }
}

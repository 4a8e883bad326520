//! The output of `help`.
use crate::drills::{check_printed, printed};
use crate::hosts::{must, put};
use sequence::ByteList;

/// Words, what they print, the status and the line, and the indices of the writes that fail.
const HELPS: &str =
    "help show | =rmi_0.1.0~~show~____prints_the_graph_of_the_serialization_stream_on_the_standard_input_as_text~ =____example:_rmi_show_<_stream.bin~ | 0 |
help drill | =rmi_0.1.0~~drill_SEED_N~____makes_generated_events_on_a_new_object_table,_and_prints_the_summary_of_its_history~ =____SEED:_the_seed_of_the_drill:_0_to_9223372036854775807~____N:_how_many_rounds_the_drill_has:_1_to_1000000~____example:_rmi_drill_1_1000~ | 0 |
help world | =rmi_0.1.0~~world~____makes_the_steps_of_the_script_on_the_standard_input_between_clients_and_one_object_table,_and_prints_the_end~ =____example:_rmi_world_<_script.txt~ | 0 |
help help | =rmi_0.1.0~~help_[COMMAND]~____prints_all_commands,_or_one~____COMMAND:_the_command_to_explain_(all_commands)~____example:_rmi_help_serve~ | 0 |
help show | | 4 write fault | 0
help | | 4 write fault | 0
help nothing | | 1 usage |
help show show | | 1 usage |";

#[test]
fn each_help_is_printed(rt: HostRuntime) {
    for line in HELPS.split('\n') {
        check_printed(&rt, rt.alloc(), line);
    }
}

/// The words that print one command's help, in the order of the commands.
const TOPICS: [&str; 17] = [
    "help answer",
    "help serve",
    "help host",
    "help list",
    "help lookup",
    "help bind",
    "help unbind",
    "help call",
    "help replay",
    "help show",
    "help drill",
    "help journal",
    "help world",
    "help suid",
    "help suidtext",
    "help describe",
    "help help",
];

#[test]
fn help_prints_the_help_of_each_command(rt: HostRuntime) {
    let version = b"rmi 0.1.0\n";
    let mut all = ByteList::new(rt.alloc());
    put(&rt, &mut all, version);
    for words in TOPICS {
        let one = printed(&rt, rt.alloc(), words, &[]);
        match one.as_slice().strip_prefix(version) {
            Some(rest) => put(&rt, &mut all, rest),
            None => must(&rt, false, words),
        }
    }
    let whole = printed(&rt, rt.alloc(), "help", &[]);
    must(&rt, whole.as_slice() == all.as_slice(), "all commands");
}

//! The output of `show`, and the way in which it ends.
use crate::hosts::check_table;

/// A stream, what is printed, how many bytes are left where that is told, and the status and the line. The first ones are an array of two
/// references to one text, whose class has a null in its note, the same of another text, and the same of a class with an empty note.
const STREAMS: &str = "magic | | 0 | 0
magic strings 70 78 70 00000002 74 0001 =z 71 007E0002 | =#0_desc_\"[Ljava.lang.String;\"_add256e7e91d7b47_02_-_note_null_super_null~#1_array_#0_2_#2,#2~#2_text_\"z\"~item_#1~ | 0 | 0
magic strings 70 78 70 00000002 74 0001 =a 71 007E0002 | =#0_desc_\"[Ljava.lang.String;\"_add256e7e91d7b47_02_-_note_null_super_null~#1_array_#0_2_#2,#2~#2_text_\"a\"~item_#1~ | 0 | 0
magic strings 78 70 00000002 74 0001 =a 71 007E0002 | =#0_desc_\"[Ljava.lang.String;\"_add256e7e91d7b47_02_-_note_-_super_null~#1_array_#0_2_#2,#2~#2_text_\"a\"~item_#1~ | 0 | 0
magic 74 0001 =a | =#0_text_\"a\"~item_#0~ | 0 | 0
magic 70 77 02 0201 7A 00000001 03 71 007E0000 | | | 2 bad stream bad handle at 15
magic 77 02 0201 7A 00000001 03 70 | =item_x:020103~item_null~ | 0 | 0
magic 7C FFFFFFFFFFFFFFFF | | | 2 bad stream negative length at 5
magic 79 | | | 2 bad stream reset at 4
magic 75 70 | | | 2 bad stream bad code at 5
magic 74 0001 00 | | | 2 bad stream bad utf at 7
magic 71 007E0000 | | | 2 bad stream bad handle at 4
magic 74 00 | | | 2 truncated at 6";

#[test]
fn each_stream_has_its_text_or_its_fault(rt: HostRuntime) {
    check_table(&rt, rt.alloc(), "show", "- 1", STREAMS);
}

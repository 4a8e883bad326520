//! Tests of `suid`, `suidtext` and `describe`: their outputs and ends.
use crate::hosts::{check, check_table, cut_by, must, put};
use sequence::ByteList;
use std::alloc::Global;
use std::process::Abort;

/// A class outline, what `suid` prints, how many bytes are left, and the status and the line. The first two are a class without and with a field,
/// and the others each have one line of them changed.
const NUMBERS: &str = "=class_33_A~constructor_1_()V~ | =70f11b9750b5019c~ | 0 | 0
=class_33_A~constructor_1_()V~field_2_n_I~ | =9643df32e4d7b83a~ | 0 | 0
=class_33_B~constructor_1_()V~ | =bdf2c2d4a2481203~ | 0 | 0
=class_49_A~constructor_1_()V~ | =07b4208010ceb21f~ | 0 | 0
=class_33_A~constructor_2_()V~ | =09d73596f986c634~ | 0 | 0
=class_33_A~constructor_1_(I)V~ | =e4435c47217ed142~ | 0 | 0
=class_33_A~constructor_1_()V~field_2_n_J~ | =a1ae9944011cf862~ | 0 | 0
=class_33_A~field_2_n_I~constructor_1_()V~ | =9643df32e4d7b83a~ | 0 | 0
=class_33_A~constructor_1_()V~field_10_n_I~ | =70f11b9750b5019c~ | 0 | 0";

/// The same of `suidtext`.
const TEXTS: &str =
    "=class_33_A~constructor_1_()V~ | =0001410000000100063c696e69743e000000010003282956~ | 0 | 0
=class_33_A~constructor_1_()V~field_2_n_I~ | =0001410000000100016e0000000200014900063c696e69743e000000010003282956~ | 0 | 0
=class_33_B~constructor_1_()V~ | =0001420000000100063c696e69743e000000010003282956~ | 0 | 0
=class_49_A~constructor_1_()V~ | =0001410000001100063c696e69743e000000010003282956~ | 0 | 0
=class_33_A~constructor_2_()V~ | =00014100000001~ | 0 | 0
=class_33_A~constructor_1_(I)V~ | =0001410000000100063c696e69743e00000001000428492956~ | 0 | 0
=class_33_A~constructor_1_()V~field_2_n_J~ | =0001410000000100016e0000000200014a00063c696e69743e000000010003282956~ | 0 | 0
=class_33_A~field_2_n_I~constructor_1_()V~ | =0001410000000100016e0000000200014900063c696e69743e000000010003282956~ | 0 | 0
=class_33_A~constructor_1_()V~field_10_n_I~ | =0001410000000100063c696e69743e000000010003282956~ | 0 | 0";

/// The same of `describe`.
const DESCRIPTIONS: &str =
    "=class_33_A~constructor_1_()V~ | ACED0005 72 0001 41 70F11B9750B5019C 02 0000 70 78 70 | 0 | 0
=class_33_A~constructor_1_()V~field_2_n_I~ | ACED0005 72 0001 41 9643DF32E4D7B83A 02 0001 49 0001 6E 70 78 70 | 0 | 0
=class_33_B~constructor_1_()V~ | ACED0005 72 0001 42 BDF2C2D4A2481203 02 0000 70 78 70 | 0 | 0
=class_49_A~constructor_1_()V~ | ACED0005 72 0001 41 07B4208010CEB21F 02 0000 70 78 70 | 0 | 0
=class_33_A~constructor_2_()V~ | ACED0005 72 0001 41 09D73596F986C634 02 0000 70 78 70 | 0 | 0
=class_33_A~constructor_1_(I)V~ | ACED0005 72 0001 41 E4435C47217ED142 02 0000 70 78 70 | 0 | 0
=class_33_A~constructor_1_()V~field_2_n_J~ | ACED0005 72 0001 41 A1AE9944011CF862 02 0001 4A 0001 6E 70 78 70 | 0 | 0
=class_33_A~field_2_n_I~constructor_1_()V~ | ACED0005 72 0001 41 9643DF32E4D7B83A 02 0001 49 0001 6E 70 78 70 | 0 | 0
=class_33_A~constructor_1_()V~field_10_n_I~ | ACED0005 72 0001 41 70F11B9750B5019C 02 0000 70 78 70 | 0 | 0";

#[test]
fn each_outline_has_its_number_its_text_and_its_description(rt: HostRuntime) {
    check_table(&rt, rt.alloc(), "suid", "- 1", NUMBERS);
    check_table(&rt, rt.alloc(), "suidtext", "- 1", TEXTS);
    check_table(&rt, rt.alloc(), "describe", "- 1", DESCRIPTIONS);
}

/// Texts with a line that is none of an outline.
const BAD_LINES: &str = "=class_33_A~constructor_1_()V~field_2_n_I~field_2_n_J~ | | 0 | 2 bad line 4
=class_33_A~constructor_1_()V~field_2_n_I~bad~ | | 0 | 2 bad line 4
=class_33~ | | 0 | 2 bad line 1
=class_33_A~constructor_1_()V_~ | | 0 | 2 bad line 2
 | | 0 | 2 bad line 1
=class_33_A | | 0 | 2 bad line 1";

/// An outline of exactly 1,048,576 bytes: 16 fields, each an array of up to 65,534 dimensions.
const LONGEST: &str =
    "=class_33_A~ =field_0_a_ 65534*=[ =I~ =field_0_b_ 65534*=[ =I~ =field_0_c_ 65534*=[ =I~ =field_0_d_ 65534*=[ =I~ =field_0_e_ 65534*=[ =I~ =field_0_f_ 65534*=[ =I~ =field_0_g_ 65534*=[ =I~ =field_0_h_ 65534*=[ =I~ =field_0_i_ 65534*=[ =I~ =field_0_j_ 65534*=[ =I~ =field_0_k_ 65534*=[ =I~ =field_0_l_ 65534*=[ =I~ =field_0_m_ 65534*=[ =I~ =field_0_n_ 65534*=[ =I~ =field_0_o_ 65534*=[ =I~ =field_0_p_ 65363*=[ =I~ | =bcf136238a2746c8~ | 0 | 0";

/// Bad outlines as long as the limit and one byte longer, and reads and writes that fail, by their indices.
const ENDS: &str = "=class_33_A~ 1048565*=x | | | 2 bad line 2
=class_33_A~ 1048566*=x | | | 6 too large bytes at 1048576
=class_33_A~ | | | 3 read fault | 0 |
=class_33_A~ | | | 3 read fault | 1 |
=class_33_A~ | | | 4 write fault | | 0";

#[test]
fn bad_lines_limits_and_failures_are_told(rt: HostRuntime) {
    for command in ["suid", "suidtext", "describe"] {
        check_table(&rt, rt.alloc(), command, "- 1", BAD_LINES);
        check_table(&rt, rt.alloc(), command, "-", ENDS);
    }
    check_table(&rt, rt.alloc(), "suid", "-", LONGEST);
}

/// Appends the line of a field.
fn put_field(rt: &impl Abort, alloc: Global, outline: &mut ByteList, place: u32) {
    match format!(in alloc; "field 0 f{place} I\n") {
        Ok(line) => put(rt, outline, line.as_bytes()),
        Err(_) => must(rt, false, "memory"),
    }
}

/// The outline of a class with one field more than a description may have.
fn outline_of_fields(rt: &impl Abort, alloc: Global) -> ByteList {
    let mut outline = ByteList::new(alloc);
    put(rt, &mut outline, b"class 33 A\n");
    for place in 0..32_768 {
        put_field(rt, alloc, &mut outline, place);
    }
    outline
}

#[test]
fn too_many_fields_are_refused(rt: HostRuntime) {
    let outline = outline_of_fields(&rt, rt.alloc());
    let input = outline.as_slice();
    let _left = check(
        &rt,
        rt.alloc(),
        "describe",
        input,
        cut_by("-"),
        &[],
        "6 refused",
    );
}

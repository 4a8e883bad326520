//! Descriptions of classes.
use crate::script::{code_of, desc_of};
use crate::text::{MEMORY, ascii, cut, is_text, must, number_of};
use class_desc::{
    ClassParts, DescFault, KnownClass, PartField, TypeCode, check_desc, check_type_text,
    element_code, known,
};
use sequence::{Same, TryCopy};

/// The known classes, in the order of their lines.
const CLASSES: [KnownClass; 14] = [
    KnownClass::ObjId,
    KnownClass::Uid,
    KnownClass::Vmid,
    KnownClass::Lease,
    KnownClass::ByteArray,
    KnownClass::TextArray,
    KnownClass::ObjIdArray,
    KnownClass::Proxy,
    KnownClass::RefHandler,
    KnownClass::RemoteObject,
    KnownClass::RemoteException,
    KnownClass::IoException,
    KnownClass::Exception,
    KnownClass::Throwable,
];

/// A class's name, its serialVersionUID and its flags in hex, and of each field the type, the name, and the type text if there
/// is one.
const LINES: &str =
    "java.rmi.server.ObjID A75EFA128DDCE55C 02 J:objNum: L:space:Ljava/rmi/server/UID;
java.rmi.server.UID 0F12700DBF364F12 02 S:count: J:time: I:unique:
java.rmi.dgc.VMID F8865BAFA4A56DB6 02 [:addr:[B L:uid:Ljava/rmi/server/UID;
java.rmi.dgc.Lease B0B5E2660C4ADC34 02 J:value: L:vmid:Ljava/rmi/dgc/VMID;
[B ACF317F8060854E0 02
[Ljava.lang.String; ADD256E7E91D7B47 02
[Ljava.rmi.server.ObjID; 871300B8D02C647E 02
java.lang.reflect.Proxy E127DA20CC1043CB 02 L:h:Ljava/lang/reflect/InvocationHandler;
java.rmi.server.RemoteObjectInvocationHandler 0000000000000002 02
java.rmi.server.RemoteObject D361B4910C61331E 03
java.rmi.RemoteException B88C9D4EDEE47A22 02 L:detail:Ljava/lang/Throwable;
java.io.IOException 6C8073646525F0AB 02
java.lang.Exception D0FD1F3E1A3B1CC4 02
java.lang.Throwable D5C635273977B8CB 03 L:detailMessage:Ljava/lang/String;";

/// Returns whether a field is that of a word.
fn is_field(field: &PartField, word: &str) -> bool {
    let (code, rest) = cut(word, ':');
    let (name, type_text) = cut(rest, ':');
    code.as_bytes() == [field.code.letter()].as_slice()
        && is_text(&field.name, name)
        && is_text(&field.type_text, type_text)
}

/// Returns whether a class's parts are those of a line.
fn is_line(parts: &ClassParts, line: &str) -> bool {
    let (name, rest) = cut(line, ' ');
    let (suid, rest) = cut(rest, ' ');
    let (flags, mut fields) = cut(rest, ' ');
    for field in parts.fields.as_slice() {
        let (word, rest) = cut(fields, ' ');
        if !is_field(field, word) {
            return false;
        }
        fields = rest;
    }
    fields.is_empty()
        && is_text(&parts.name, name)
        && parts.suid.to_be_bytes() == number_of(suid.as_bytes()).to_be_bytes()
        && u64::from(parts.flags) == number_of(flags.as_bytes())
}

#[test]
fn known_classes_are_the_tables(rt: HostRuntime) {
    for (class, line) in CLASSES.iter().zip(LINES.split('\n')) {
        let parts = known(rt.alloc(), *class).expect(&rt, MEMORY);
        must(&rt, is_line(&parts, line), line);
    }
}

/// Descriptions, and what is wrong with them.
const DESCRIPTIONS: &str = "A 1 06 null - = bad flags
A 1 02 null - J:b I:a = field order
A 1 02 null - I:a I:a = field order
A 1 02 null - L:a J:b = field order
A 1 02 null - I:a J:b L:a = right
A 0 12 null - = right
A 0 12 null - I:a = bad flags
A 1 12 null - = bad flags";

/// The answer of a check, in a word or two.
fn words_of(answer: Result<(), DescFault>) -> &'static str {
    match answer {
        Ok(()) => "right",
        Err(DescFault::BadFlags) => "bad flags",
        Err(DescFault::FieldOrder) => "field order",
        Err(DescFault::BadTypeText) => "bad type text",
    }
}

#[test]
fn descriptions_are_checked(rt: HostRuntime) {
    for line in DESCRIPTIONS.split('\n') {
        let (words, expected) = cut(line, '=');
        let desc = desc_of(&rt, rt.alloc(), words);
        must(&rt, words_of(check_desc(&desc)) == expected.trim(), line);
    }
}

/// A field's type, a type text, what a check of them answers; and the type of the elements of an array of that name, or `-`.
const TYPE_TEXTS: &str = "L LA; - right
L L; - bad type text
L [B B bad type text
[ [[LA; [ right
[ [BB - bad type text
[ [ - bad type text
[ [B B right
[ [[I [ right
[ [LA; L right
I I - bad type text";

/// The letter of a type, or `-`.
fn letter_of(code: Option<TypeCode>) -> u8 {
    match code {
        Some(code) => code.letter(),
        None => b'-',
    }
}

#[test]
fn type_texts_are_checked(rt: HostRuntime) {
    for line in TYPE_TEXTS.split('\n') {
        let (code, rest) = cut(line, ' ');
        let (text, rest) = cut(rest, ' ');
        let (element, expected) = cut(rest, ' ');
        let text = ascii(rt.alloc(), text).expect(&rt, MEMORY);
        must(
            &rt,
            words_of(check_type_text(code_of(code), &text)) == expected,
            line,
        );
        must(
            &rt,
            element.as_bytes() == [letter_of(element_code(&text))].as_slice(),
            line,
        );
    }
}

#[test]
fn letters_of_types(rt: HostRuntime) {
    for byte in b"BCDFIJSZ[L" {
        let code = TypeCode::from_letter(*byte);
        must(
            &rt,
            code.is_some_and(|code| code.letter() == *byte),
            "a letter",
        );
    }
    must(&rt, TypeCode::from_letter(b'A').is_none(), "no letter");
}

#[test]
fn copies_are_the_same(rt: HostRuntime) {
    let desc = desc_of(&rt, rt.alloc(), "A 1 02 null - I:a");
    let copy = desc.try_copy(rt.alloc()).expect(&rt, MEMORY);
    must(&rt, copy.is_same(&desc), "a copy");
    let other = desc_of(&rt, rt.alloc(), "A 2 02 null -");
    must(&rt, !other.is_same(&desc), "another");
}

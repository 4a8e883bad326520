//! Bytes from words: names of pieces that stand in many rows, texts behind `=`, and hexadecimal digits, once or so many times.
use crate::texts::{must, put};
use sequence::ByteList;
use std::alloc::Global;
use std::process::Abort;
use test_support::texts::{digit_of, meaning_of, put_digits};

/// The name of a piece, and its words: the client's header and endpoint, the server's acknowledgement, calls of the registry and of the collector up
/// to the operation, the two interfaces' hashes, Returns up to their result, and the objects that calls and Returns hold. `NESTED` is an array of objects, up to its
/// length.
const WORDS: &str = "HEAD 4A524D49 0002 4B
OWN =127.0.0.1 00000000
ACK 4E =127.0.0.1 000004D2
REG 50 ACED0005 77 22 0000000000000000 00000000 0000000000000000 0000
DGC 50 ACED0005 77 22 0000000000000002 00000000 0000000000000000 0000
NAMING 44154DC9D4E63BDF
LEASING F6B6898D8BF28643
LONG 51 ACED0005 77 17 01 00000006 0000000000000006 8000
ADD 50 ACED0005 77 2A 0000000000000010 00000007 0000000000000009 0000 FFFFFFFF 0000000000000005 0000000000000005
TOUCH 50 ACED0005 77 22 0000000000000010 00000007 0000000000000009 0000 FFFFFFFF 0000000000000005
NORMAL 51 ACED0005 77 0F 01 00000006 0000000000000006 8000
THROWN 51 ACED0005 77 0F 02 00000006 0000000000000006 8000
UID0 00000006 0000000000000006 8000
ECHO 73 7D 00000002 =java.rmi.Remote =sample.Echo
REMOTE 73 7D 00000001 =java.rmi.Remote
PROXY 70 78 72 =java.lang.reflect.Proxy E127DA20CC1043CB 02 0001 4C =h 74 =Ljava/lang/reflect/InvocationHandler; 70 78 70 73 72 =java.rmi.server.RemoteObjectInvocationHandler 0000000000000002 02 0000 70 78 72 =java.rmi.server.RemoteObject D361B4910C61331E 03 0000 70 78 70
MADE 77 32 =UnicastRef =127.0.0.1 0000044B 0000000000000011 00000007 0000000000000009 0000
AFAR 77 32 =UnicastRef =127.0.0.1 0000044C 0000000000000011 00000007 0000000000000009 0000
LIVE 77 32 =UnicastRef =127.0.0.1 0000044B 0000000000000010 00000007 0000000000000009 0000
NESTED 75 72 =[Ljava.lang.Object; 90CE589F1073296C 02 0000 70 78 70
STRINGS 75 72 =[Ljava.lang.String; ADD256E7E91D7B47 02 0000 70 78 70
FAULT 73 72 =java.rmi.RemoteException B88C9D4EDEE47A22 02 0001 4C =detail 74 =Ljava/lang/Throwable; 70 78 72 =java.io.IOException 6C8073646525F0AB 02 0000 70 78 72 =java.lang.Exception D0FD1F3E1A3B1CC4 02 0000 70 78 72 =java.lang.Throwable D5C635273977B8CB 03 0001 4C =detailMessage 74 =Ljava/lang/String; 70 78 70
HELD 75 72 =[Ljava.rmi.server.ObjID; 871300B8D02C647E 02 0000 70 78 70 00000001 73 72 =java.rmi.server.ObjID A75EFA128DDCE55C 02 0002 4A =objNum 4C =space 74 =Ljava/rmi/server/UID; 70 78 70 0000000000000010 73 72 =java.rmi.server.UID 0F12700DBF364F12 02 0003 53 =count 4A =time 49 =unique 70 78 70 0000 0000000000000009 00000007
OBJECTS 75 72 =[Ljava.rmi.server.ObjID; 871300B8D02C647E 02 0000 70 78 70 00000001 73 72 =java.rmi.server.ObjID A75EFA128DDCE55C 02 0002 4A =objNum 4C =space 74 =Ljava/rmi/server/UID; 70 78 70 0000000000000011 73 72 =java.rmi.server.UID 0F12700DBF364F12 02 0003 53 =count 4A =time 49 =unique 70 78 70 0000 0000000000000009 00000007
BOTH 75 72 =[Ljava.rmi.server.ObjID; 871300B8D02C647E 02 0000 70 78 70 00000002 73 72 =java.rmi.server.ObjID A75EFA128DDCE55C 02 0002 4A =objNum 4C =space 74 =Ljava/rmi/server/UID; 70 78 70 0000000000000010 73 72 =java.rmi.server.UID 0F12700DBF364F12 02 0003 53 =count 4A =time 49 =unique 70 78 70 0000 0000000000000009 00000007 73 71 007E0002 0000000000000011 73 71 007E0005 0000 0000000000000009 00000007
LEASE 73 72 =java.rmi.dgc.Lease B0B5E2660C4ADC34 02 0002 4A =value 4C =vmid 74 =Ljava/rmi/dgc/VMID; 70 78 70
CALLER 73 72 =java.rmi.dgc.VMID F8865BAFA4A56DB6 02 0002 5B =addr 74 =[B 4C =uid 71 007E0003 70 78 70 75 72 =[B ACF317F8060854E0 02 0000 70 78 70 00000008 0102030405060708 73 72 =java.rmi.server.UID 0F12700DBF364F12 02 0003 53 =count 4A =time 49 =unique 70 78 70 0005 0000000000000004 00000003
HOLDER 73 72 =java.rmi.dgc.VMID F8865BAFA4A56DB6 02 0002 5B =addr 74 =[B 4C =uid 74 =Ljava/rmi/server/UID; 70 78 70 75 72 =[B ACF317F8060854E0 02 0000 70 78 70 00000008 0102030405060708 73 72 =java.rmi.server.UID 0F12700DBF364F12 02 0003 53 =count 4A =time 49 =unique 70 78 70 0005 0000000000000004 00000003";

/// Returns whether all characters are hexadecimal digits.
fn are_digits(word: &str) -> bool {
    for character in word.as_bytes() {
        if digit_of(*character).is_none() {
            return false;
        }
    }
    true
}

/// Appends a text of ASCII units, behind its length in two bytes.
fn put_text(rt: &impl Abort, bytes: &mut ByteList, text: &str) {
    must(rt, text.len() < 128, text);
    put(rt, bytes, &[0, (text.len() % 128) as u8]);
    put(rt, bytes, text.as_bytes());
}

/// Appends the bytes that digits spell, so many times.
fn put_times(rt: &impl Abort, bytes: &mut ByteList, digits: &str, times: u32) {
    must(rt, are_digits(digits), digits);
    for _ in 0..times {
        must(rt, put_digits(bytes, digits).is_ok(), "memory");
    }
}

/// Appends the bytes that digits spell; those of digits after a number and `*`, so many times.
fn put_spelled(rt: &impl Abort, bytes: &mut ByteList, piece: &str) {
    match piece.split_once('*') {
        Some((times, digits)) => {
            let times = times.parse::<u32>().expect(rt, "a number");
            put_times(rt, bytes, digits, times);
        }
        None => put_times(rt, bytes, piece, 1),
    }
}

/// Appends a text, or the bytes that digits spell.
fn put_piece(rt: &impl Abort, bytes: &mut ByteList, piece: &str) {
    match piece.strip_prefix('=') {
        Some(text) => put_text(rt, bytes, text),
        None => put_spelled(rt, bytes, piece),
    }
}

/// Appends what a word spells.
fn put_word(rt: &impl Abort, bytes: &mut ByteList, word: &str) {
    for piece in meaning_of(WORDS, word).split(' ') {
        put_piece(rt, bytes, piece);
    }
}

/// The bytes that words spell.
pub(crate) fn wire_of(rt: &impl Abort, alloc: Global, words: &str) -> ByteList {
    let mut bytes = ByteList::new(alloc);
    for word in words.split(' ') {
        put_word(rt, &mut bytes, word);
    }
    bytes
}

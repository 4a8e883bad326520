//! Method texts and their hashes.
use crate::texts::{bytes_from, cut, must, number_of, put};
use class_desc::TypeCode;
use method_hash::{Method, MethodFault, fold_hash, hash};
use sequence::ByteList;
use sha1::Sha1;
use std::alloc::Global;
use std::process::Abort;

/// Methods of interfaces of the Java library, and the hash that Java 17's own `computeMethodHash` gives each.
const HASHES: &str = "add(ILjava/lang/Object;)V -7917740368934075498
add(Ljava/lang/Object;)Z 7632703886422736073
addAll(ILjava/util/Collection;)Z 124696328729152289
addAll(Ljava/util/Collection;)Z 3758720003833848459
bind(Ljava/lang/String;Ljava/rmi/Remote;)V 7583982177005850366
clean([Ljava/rmi/server/ObjID;JLjava/rmi/dgc/VMID;Z)V -5803803475088455571
compute(Ljava/lang/Object;Ljava/util/function/BiFunction;)Ljava/lang/Object; 8575171751418810734
computeIfAbsent(Ljava/lang/Object;Ljava/util/function/Function;)Ljava/lang/Object; 8949860885842319503
containsAll(Ljava/util/Collection;)Z 241752281689676622
dirty([Ljava/rmi/server/ObjID;JLjava/rmi/dgc/Lease;)Ljava/rmi/dgc/Lease; -8139341527526761862
get(Ljava/lang/Object;)Ljava/lang/Object; 6832719500409870279
getAsciiStream()Ljava/io/InputStream; 4133330996454960716
getBinaryStream()Ljava/io/InputStream; -1549927484365264700
getBinaryStream(JJ)Ljava/io/InputStream; 1476709930246956506
getBytes(JI)[B -668565138677364431
getClassAnnotation(Ljava/lang/Class;)Ljava/lang/String; -5110240237250631749
getSubString(JI)Ljava/lang/String; 1915378705229544949
hashCode()I 2593808613140459179
keySet()Ljava/util/Set; -3654007840389775963
list()[Ljava/lang/String; 2571371476350237748
listIterator()Ljava/util/ListIterator; -1022211269330248268
listIterator(I)Ljava/util/ListIterator; -3766707076957039918
lookup(Ljava/lang/String;)Ljava/rmi/Remote; -7538657168040752697
next()Ljava/lang/Object; 3295034085224809097
notify()V -9010469446377035049
notifyAll()V 2779594630257146775
position(Ljava/lang/String;J)J 8960019935282574843
position(Ljava/sql/Blob;J)J -4662994947635872521
position([BJ)J -7502179361045483782
putAll(Ljava/util/Map;)V 6292447698899276240
putIfAbsent(Ljava/lang/Object;Ljava/lang/Object;)Ljava/lang/Object; 6970056438613982363
readByte()B 5530578855165420152
readDouble()D -7649512574817605783
readFully([B)V -4609180155712823848
readFully([BII)V -6962648150703751614
readUTF()Ljava/lang/String; -4806268686373167633
readUnsignedShort()I -3259694414750018014
rebind(Ljava/lang/String;Ljava/rmi/Remote;)V -8381844669958460146
removeAll(Ljava/util/Collection;)Z 2702358819389066271
replace(Ljava/lang/Object;Ljava/lang/Object;Ljava/lang/Object;)Z -2361708917029173664
replaceAll(Ljava/util/function/UnaryOperator;)V -3153633548125375243
reversed()Ljava/util/Comparator; 4479990712712283771
setAsciiStream(J)Ljava/io/OutputStream; -6296927449124563330
setString(JLjava/lang/String;)I -8349621152191248851
setString(JLjava/lang/String;II)I -1446507402067372011
size()I 4495240443643581991
skipBytes(I)I -8541439912875297851
sort(Ljava/util/Comparator;)V -9111781497593121150
spliterator()Ljava/util/Spliterator; 756941812734079431
thenComparing(Ljava/util/Comparator;)Ljava/util/Comparator; -357270277867295939
thenComparing(Ljava/util/function/Function;)Ljava/util/Comparator; -6065788491920961310
thenComparingLong(Ljava/util/function/ToLongFunction;)Ljava/util/Comparator; -8299167993699744560
truncate(J)V 7599018077992566169
unbind(Ljava/lang/String;)V 7305022919901907578
values()Ljava/util/Collection; -2518452077531405751
write(I)V 1985515759536595603
writeByte(I)V -6603867576975789220
writeBytes(Ljava/lang/String;)V 6876170769527200258
writeChar(I)V 6846165210205610547
writeChars(Ljava/lang/String;)V -4633508766419883461
writeUTF(Ljava/lang/String;)V 1504297677398557983";

/// The hash of a text's method.
fn hash_of(rt: &impl Abort, alloc: Global, text: &str) -> i64 {
    let method = Method::parse(alloc, text.as_bytes()).expect(rt, text);
    hash(&method)
}

/// Looks whether a text's method has the hash that a line tells.
fn check_hash(rt: &impl Abort, alloc: Global, line: &str) {
    let (text, number) = cut(line, ' ');
    let wanted = number.parse::<i64>().expect(rt, line);
    must(rt, hash_of(rt, alloc, text) == wanted, line);
}

#[test]
fn hashes_are_javas(rt: HostRuntime) {
    for line in HASHES.split('\n') {
        check_hash(&rt, rt.alloc(), line);
    }
}

/// Texts that are no method's, and how long the longest front is with which some method's text begins.
const BROKEN: &str = " 0
()V 0
a.b()V 1
a/b()V 1
a 1
a;()V 1
a(V)V 2
a(L;)V 3
a([)V 3
a(La[;)V 4
a([La(;)V 5
add) 3
add(J 5
add(J) 6
add(Q)V 4
add(J)Q 6
add(J)JJ 7
add(J)V; 7
add(J)[V 7
a()[[V 5
a()L; 4
a()La 5";

/// The place at which a text breaks, 1,000,000 where it doesn't.
fn break_of(alloc: Global, text: &[u8]) -> usize {
    match Method::parse(alloc, text) {
        Err(MethodFault::BadDescriptor { at }) => at,
        _ => 1_000_000,
    }
}

/// Looks whether a text breaks where a line tells.
fn check_break(rt: &impl Abort, alloc: Global, line: &str) {
    let (text, at) = cut(line, ' ');
    let wanted = number_of(rt, at) as usize;
    must(rt, break_of(alloc, text.as_bytes()) == wanted, line);
}

#[test]
fn other_texts_break_where_no_method_goes_on(rt: HostRuntime) {
    for line in BROKEN.split('\n') {
        check_break(&rt, rt.alloc(), line);
    }
}

/// A piece so many times, between a start and an end, and where that breaks: at 1,000,000 where it doesn't.
const LIMITS: &str = "|255|n|()V|1000000
|256|n|()V|255
a(|255|J|)V|1000000
a(|256|J|)V|257
a(L|65529|x|;)V|1000000
a(L|65530|x|;)V|65532";

/// A text of a start, so many pieces alike, and an end.
fn text_of(
    rt: &impl Abort,
    alloc: Global,
    start: &str,
    count: &str,
    piece: &str,
    end: &str,
) -> ByteList {
    let mut text = bytes_from(rt, alloc, start.as_bytes());
    for _ in 0..number_of(rt, count) {
        put(rt, &mut text, piece.as_bytes());
    }
    put(rt, &mut text, end.as_bytes());
    text
}

/// Looks where the text of a line breaks.
fn check_limit(rt: &impl Abort, alloc: Global, line: &str) {
    let (start, rest) = cut(line, '|');
    let (count, rest) = cut(rest, '|');
    let (piece, rest) = cut(rest, '|');
    let (end, at) = cut(rest, '|');
    let text = text_of(rt, alloc, start, count, piece, end);
    let wanted = number_of(rt, at) as usize;
    must(rt, break_of(alloc, text.as_slice()) == wanted, line);
}

#[test]
fn texts_are_taken_up_to_their_limits(rt: HostRuntime) {
    for line in LIMITS.split('\n') {
        check_limit(&rt, rt.alloc(), line);
    }
}

/// Texts of methods, each with its name, the letters of its parameters' types, and that of its result's type, where it has one.
const PARTS: &str = "put(ILa/B;[[J)Z | put | IL[ | Z
add(J)J | add | J | J
get()J | get | | J
done()V | done | |";

/// Returns whether these are types of these letters.
fn are_lettered(codes: &[TypeCode], letters: &str) -> bool {
    let mut left = letters.as_bytes();
    for code in codes {
        match left.split_first() {
            Some((letter, rest)) if *letter == code.letter() => left = rest,
            _ => return false,
        }
    }
    left.is_empty()
}

/// Returns whether a method has these parts.
fn has_parts(method: &Method, name: &str, params: &str, answer: &str) -> bool {
    let told = match &method.result {
        Some(code) => are_lettered(&[*code], answer),
        None => answer.is_empty(),
    };
    told && method.name.as_slice() == name.as_bytes()
        && are_lettered(method.params.as_slice(), params)
}

/// Looks at the parts of the method that a line tells.
fn check_parts(rt: &impl Abort, alloc: Global, line: &str) {
    let (text, rest) = cut(line, '|');
    let (name, rest) = cut(rest, '|');
    let (params, answer) = cut(rest, '|');
    let method = Method::parse(alloc, text.as_bytes()).expect(rt, line);
    must(rt, has_parts(&method, name, params, answer), line);
    must(rt, method.text.as_slice() == text.as_bytes(), line);
}

#[test]
fn the_parts_of_a_method_are_told(rt: HostRuntime) {
    for line in PARTS.split('\n') {
        check_parts(&rt, rt.alloc(), line);
    }
}

/// The digest of `abc` by SHA-1 (FIPS 180-4).
const DIGEST: [u8; 20] = [
    0xA9, 0x99, 0x3E, 0x36, 0x47, 0x06, 0x81, 0x6A, 0xBA, 0x3E, 0x25, 0x71, 0x78, 0x50, 0xC2, 0x6C,
    0x9C, 0xD0, 0xD8, 0x9D,
];

#[test]
fn the_digest_of_abc_is_folded(rt: HostRuntime) {
    let mut hasher = Sha1::new();
    hasher.update(b"abc");
    let digest = hasher.finalize();
    must(&rt, digest == DIGEST, "the digest");
    must(&rt, fold_hash(digest) == 0x6A81_0647_363E_99A9, "folded");
}

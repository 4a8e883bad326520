//! Rows on outlines: the text that is hashed, the number, and the first bad line.

use sequence::ByteList;
use std::alloc::{AllocError, Global};
use std::process::Abort;
use suid_calc::{OutlineFault, is_outline, numbers_of, parse_outline, suid, suid_text};

/// Stops where this does not hold, and says what it is.
fn must(rt: &impl Abort, holds: bool, what: &str) {
    assert!(rt; holds, "{what}");
}

/// Outlines, and the texts of which their numbers are hashes.
const TEXTS: [(&[u8], &[u8]); 18] = [
    (
        // the first row
        b"class 33 A\nconstructor 1 ()V\n",
        b"\x00\x01A\x00\x00\x00\x01\x00\x06<init>\x00\x00\x00\x01\x00\x03()V",
    ),
    (
        // another modifier of the class
        b"class 49 A\nconstructor 1 ()V\n",
        b"\x00\x01A\x00\x00\x00\x11\x00\x06<init>\x00\x00\x00\x01\x00\x03()V",
    ),
    (
        // another parameter
        b"class 33 A\nconstructor 1 (I)V\n",
        b"\x00\x01A\x00\x00\x00\x01\x00\x06<init>\x00\x00\x00\x01\x00\x04(I)V",
    ),
    (
        // with a field
        b"class 33 A\nconstructor 1 ()V\nfield 2 n I\n",
        b"\x00\x01A\x00\x00\x00\x01\x00\x01n\x00\x00\x00\x02\x00\x01I\x00\x06<init>\x00\x00\x00\x01\x00\x03()V",
    ),
    (
        // another type of it
        b"class 33 A\nconstructor 1 ()V\nfield 2 n J\n",
        b"\x00\x01A\x00\x00\x00\x01\x00\x01n\x00\x00\x00\x02\x00\x01J\x00\x06<init>\x00\x00\x00\x01\x00\x03()V",
    ),
    (
        // by bytes, before dots are put
        b"class 0 A\nmethod 1 f (La/b;)V\nmethod 1 f (La.c;)V\n",
        b"\x00\x01A\x00\x00\x00\x00\x00\x01f\x00\x00\x00\x01\x00\x08(La.c;)V\x00\x01f\x00\x00\x00\x01\x00\x08(La.b;)V",
    ),
    (
        // by names, and then by descriptors
        b"class 0 A\nmethod 0 g ()V\nmethod 0 f (J)V\nmethod 0 f (I)V\nmethod 0 f- ()V\n",
        b"\x00\x01A\x00\x00\x00\x00\x00\x01f\x00\x00\x00\x00\x00\x04(I)V\x00\x01f\x00\x00\x00\x00\x00\x04(J)V\x00\x02f-\x00\x00\x00\x00\x00\x03()V\x00\x01g\x00\x00\x00\x00\x00\x03()V",
    ),
    (
        // interfaces in their order
        b"class 0 A\ninterface z.B\ninterface z\ninterface a.C\n",
        b"\x00\x01A\x00\x00\x00\x00\x00\x03a.C\x00\x01z\x00\x03z.B",
    ),
    (
        // constructors by descriptors
        b"class 0 A\nconstructor 0 (Z)V\nconstructor 4 (B)V\n",
        b"\x00\x01A\x00\x00\x00\x00\x00\x06<init>\x00\x00\x00\x04\x00\x04(B)V\x00\x06<init>\x00\x00\x00\x00\x00\x04(Z)V",
    ),
    (
        // an interface without a method isn't abstract
        b"class 1537 A\n",
        b"\x00\x01A\x00\x00\x02\x01",
    ),
    (
        // one with a method is
        b"class 513 A\nmethod 1025 f ()V\n",
        b"\x00\x01A\x00\x00\x06\x01\x00\x01f\x00\x00\x04\x01\x00\x03()V",
    ),
    (
        // also with a private one
        b"class 513 A\nmethod 2 f ()V\n",
        b"\x00\x01A\x00\x00\x06\x01",
    ),
    (
        // a class's own bit counts
        b"class 1025 A\n",
        b"\x00\x01A\x00\x00\x04\x01",
    ),
    (
        // private static or transient fields are left out
        b"class 0 A\nfield 10 a I\nfield 130 b I\nfield 138 c I\nfield 2 d I\nfield 8 e I\nfield 128 f I\n",
        b"\x00\x01A\x00\x00\x00\x00\x00\x01d\x00\x00\x00\x02\x00\x01I\x00\x01e\x00\x00\x00\x08\x00\x01I\x00\x01f\x00\x00\x00\x80\x00\x01I",
    ),
    (
        // what counts of a field's modifiers
        b"class 0 A\nfield 65501 a I\n",
        b"\x00\x01A\x00\x00\x00\x00\x00\x01a\x00\x00\x00\xDD\x00\x01I",
    ),
    (
        // what counts of a method's
        b"class 65535 A\nmethod 65533 f ()V\nconstructor 65533 ()V\n",
        b"\x00\x01A\x00\x00\x06\x11\x00\x06<init>\x00\x00\x0D=\x00\x03()V\x00\x01f\x00\x00\x0D=\x00\x03()V",
    ),
    (
        // private members are left out
        b"class 0 A\nconstructor 2 ()V\nmethod 2 f ()V\nmethod 3 g ()V\n",
        b"\x00\x01A\x00\x00\x00\x00",
    ),
    (
        // an initializer stands before constructors
        b"class 0 A\nconstructor 0 ()V\nclinit\nfield 0 a I\n",
        b"\x00\x01A\x00\x00\x00\x00\x00\x01a\x00\x00\x00\x00\x00\x01I\x00\x08<clinit>\x00\x00\x00\x08\x00\x03()V\x00\x06<init>\x00\x00\x00\x00\x00\x03()V",
    ),
];

/// Outlines of classes, and the numbers that Java 17 gives for these.
const NUMBERS: [(&[u8], i64); 10] = [
    (
        // A
        b"class 1 A\ninterface java.io.Serializable\nconstructor 1 ()V\n",
        -5362330504532103641,
    ),
    (
        // B
        b"class 1025 B\ninterface java.io.Serializable\ninterface java.lang.Comparable\ninterface java.lang.Cloneable\nfield 8 count I\nfield 10 hidden I\nfield 130 gone I\nfield 2 kept I\nfield 196 seen J\nfield 0 names [[Ljava/lang/String;\nfield 24 M Ljava/util/Map;\nclinit\nconstructor 4 (Ljava/lang/String;[J)V\nconstructor 2 (I)V\nconstructor 0 ()V\nmethod 17 add (FBS)F\nmethod 4161 compareTo (Ljava/lang/Object;)I\nmethod 1 compareTo (LB;)I\nmethod 1028 make (C[[Z)Ljava/lang/Object;\nmethod 2 secret ()V\nmethod 296 nat (D)I\nmethod 128 varargs ([Ljava/lang/Object;)V\n",
        7189527993316405762,
    ),
    (
        // I
        b"class 1537 I\ninterface java.io.Serializable\nmethod 1025 f (I)I\n",
        -5703336605490942420,
    ),
    (
        // J
        b"class 1537 J\ninterface java.io.Serializable\nfield 25 K I\nfield 25 L Ljava/lang/Object;\nclinit\n",
        -4825884368371698028,
    ),
    (
        // p.C
        b"class 17 p.C\ninterface java.io.Serializable\ninterface java.lang.Runnable\nfield 0 b I\nfield 0 a J\nfield 0 o Ljava/lang/Object;\nfield 0 s Ljava/lang/String;\nconstructor 1 ()V\nmethod 1 run ()V\nmethod 1 f (Lp/C;Ljava/util/List;)Lp/C;\n",
        3728675276614561957,
    ),
    (
        // p.C$In
        b"class 0 p.C$In\ninterface java.io.Serializable\nfield 0 z I\nfield 4112 this$0 Lp/C;\nconstructor 0 (Lp/C;)V\n",
        7934096146825992765,
    ),
    (
        // java.awt.Point
        b"class 1 java.awt.Point\ninterface java.io.Serializable\nfield 1 x I\nfield 1 y I\nfield 26 serialVersionUID J\nconstructor 1 (II)V\nconstructor 1 (Ljava/awt/Point;)V\nconstructor 1 ()V\nmethod 1 equals (Ljava/lang/Object;)Z\nmethod 1 toString ()Ljava/lang/String;\nmethod 1 getLocation ()Ljava/awt/Point;\nmethod 1 move (II)V\nmethod 1 setLocation (Ljava/awt/Point;)V\nmethod 1 setLocation (DD)V\nmethod 1 setLocation (II)V\nmethod 1 getX ()D\nmethod 1 getY ()D\nmethod 1 translate (II)V\n",
        -9026260336575593990,
    ),
    (
        // java.io.File
        b"class 1 java.io.File\ninterface java.io.Serializable\ninterface java.lang.Comparable\nfield 26 fs Ljava/io/FileSystem;\nfield 18 path Ljava/lang/String;\nfield 130 status Ljava/io/File$PathStatus;\nfield 146 prefixLength I\nfield 25 separatorChar C\nfield 25 separator Ljava/lang/String;\nfield 25 pathSeparatorChar C\nfield 25 pathSeparator Ljava/lang/String;\nfield 26 UNSAFE Ljdk/internal/misc/Unsafe;\nfield 26 PATH_OFFSET J\nfield 26 PREFIX_LENGTH_OFFSET J\nfield 26 serialVersionUID J\nfield 194 filePath Ljava/nio/file/Path;\nfield 4120 $assertionsDisabled Z\nclinit\nconstructor 1 (Ljava/lang/String;)V\nconstructor 1 (Ljava/lang/String;Ljava/lang/String;)V\nconstructor 1 (Ljava/net/URI;)V\nconstructor 2 (Ljava/lang/String;Ljava/io/File;)V\nconstructor 2 (Ljava/lang/String;I)V\nconstructor 1 (Ljava/io/File;Ljava/lang/String;)V\nmethod 1 getName ()Ljava/lang/String;\nmethod 1 equals (Ljava/lang/Object;)Z\nmethod 1 length ()J\nmethod 1 toString ()Ljava/lang/String;\nmethod 1 hashCode ()I\nmethod 1 isHidden ()Z\nmethod 1 compareTo (Ljava/io/File;)I\nmethod 4161 compareTo (Ljava/lang/Object;)I\nmethod 1 list ()[Ljava/lang/String;\nmethod 1 list (Ljava/io/FilenameFilter;)[Ljava/lang/String;\nmethod 1 isAbsolute ()Z\nmethod 1 getParent ()Ljava/lang/String;\nmethod 34 readObject (Ljava/io/ObjectInputStream;)V\nmethod 34 writeObject (Ljava/io/ObjectOutputStream;)V\nmethod 1 delete ()Z\nmethod 1 setReadOnly ()Z\nmethod 1 canRead ()Z\nmethod 1 getPath ()Ljava/lang/String;\nmethod 1 toURI ()Ljava/net/URI;\nmethod 1 toURL ()Ljava/net/URL;\nmethod 1 exists ()Z\nmethod 1 createNewFile ()Z\nmethod 1 renameTo (Ljava/io/File;)Z\nmethod 16 isInvalid ()Z\nmethod 1 getAbsolutePath ()Ljava/lang/String;\nmethod 1 getCanonicalPath ()Ljava/lang/String;\nmethod 1 isDirectory ()Z\nmethod 10 slashify (Ljava/lang/String;Z)Ljava/lang/String;\nmethod 1 getAbsoluteFile ()Ljava/io/File;\nmethod 18 normalizedList ()[Ljava/lang/String;\nmethod 1 mkdir ()Z\nmethod 1 getCanonicalFile ()Ljava/io/File;\nmethod 1 getParentFile ()Ljava/io/File;\nmethod 1 mkdirs ()Z\nmethod 1 setWritable (Z)Z\nmethod 1 setWritable (ZZ)Z\nmethod 1 setReadable (Z)Z\nmethod 1 setReadable (ZZ)Z\nmethod 1 setExecutable (ZZ)Z\nmethod 1 setExecutable (Z)Z\nmethod 9 listRoots ()[Ljava/io/File;\nmethod 9 createTempFile (Ljava/lang/String;Ljava/lang/String;Ljava/io/File;)Ljava/io/File;\nmethod 9 createTempFile (Ljava/lang/String;Ljava/lang/String;)Ljava/io/File;\nmethod 0 getPrefixLength ()I\nmethod 1 canWrite ()Z\nmethod 1 isFile ()Z\nmethod 1 lastModified ()J\nmethod 1 deleteOnExit ()V\nmethod 1 listFiles (Ljava/io/FilenameFilter;)[Ljava/io/File;\nmethod 1 listFiles (Ljava/io/FileFilter;)[Ljava/io/File;\nmethod 1 listFiles ()[Ljava/io/File;\nmethod 1 setLastModified (J)Z\nmethod 1 canExecute ()Z\nmethod 1 getTotalSpace ()J\nmethod 1 getFreeSpace ()J\nmethod 1 getUsableSpace ()J\nmethod 1 toPath ()Ljava/nio/file/Path;\n",
        1623915245110992201,
    ),
    (
        // B with its lines turned round
        b"class 1025 B\nmethod 128 varargs ([Ljava/lang/Object;)V\nmethod 296 nat (D)I\nmethod 2 secret ()V\nmethod 1028 make (C[[Z)Ljava/lang/Object;\nmethod 1 compareTo (LB;)I\nmethod 4161 compareTo (Ljava/lang/Object;)I\nmethod 17 add (FBS)F\nconstructor 0 ()V\nconstructor 2 (I)V\nconstructor 4 (Ljava/lang/String;[J)V\nclinit\nfield 24 M Ljava/util/Map;\nfield 0 names [[Ljava/lang/String;\nfield 196 seen J\nfield 2 kept I\nfield 130 gone I\nfield 10 hidden I\nfield 8 count I\ninterface java.lang.Cloneable\ninterface java.lang.Comparable\ninterface java.io.Serializable\n",
        7189527993316405762,
    ),
    (
        // B without what is left out
        b"class 1025 B\ninterface java.io.Serializable\ninterface java.lang.Comparable\ninterface java.lang.Cloneable\nfield 8 count I\nfield 2 kept I\nfield 196 seen J\nfield 0 names [[Ljava/lang/String;\nfield 24 M Ljava/util/Map;\nclinit\nconstructor 4 (Ljava/lang/String;[J)V\nconstructor 0 ()V\nmethod 17 add (FBS)F\nmethod 4161 compareTo (Ljava/lang/Object;)I\nmethod 1 compareTo (LB;)I\nmethod 1028 make (C[[Z)Ljava/lang/Object;\nmethod 296 nat (D)I\nmethod 128 varargs ([Ljava/lang/Object;)V\n",
        7189527993316405762,
    ),
];

/// Outlines, the same with their lines after the first in another order, and their one number.
const REORDERED: [(&[u8], &[u8], i64); 2] = [
    (
        b"class 33 A\nconstructor 1 ()V\nfield 2 n I\n",
        b"class 33 A\nfield 2 n I\nconstructor 1 ()V\n",
        -7619000734900045766,
    ),
    (
        b"class 17 p.C\ninterface java.io.Serializable\ninterface java.lang.Runnable\nfield 0 b I\nfield 0 a J\nfield 0 o Ljava/lang/Object;\nfield 0 s Ljava/lang/String;\nconstructor 1 ()V\nmethod 1 run ()V\nmethod 1 f (Lp/C;Ljava/util/List;)Lp/C;\n",
        b"class 17 p.C\nmethod 1 f (Lp/C;Ljava/util/List;)Lp/C;\nfield 0 s Ljava/lang/String;\nmethod 1 run ()V\ninterface java.lang.Runnable\nfield 0 o Ljava/lang/Object;\nconstructor 1 ()V\nfield 0 a J\ninterface java.io.Serializable\nfield 0 b I\n",
        3728675276614561957,
    ),
];

/// Texts, and the numbers of their first bad lines; 0 where there is none.
const LINES: [(&[u8], usize); 39] = [
    (b"", 1),
    (b"\n", 1),
    (b"class 1 A", 1),
    (b"interface A\n", 1),
    (b"class 1 A\nclass 1 A\n", 2),
    (b"class 1  A\n", 1),
    (b"class 01 A\n", 1),
    (b"class 65536 A\n", 1),
    (b"class -1 A\n", 1),
    (b"class 1 A B\n", 1),
    (b"class 1 \n", 1),
    (b"class 1 A\x0D\n", 1),
    (b"class 1 A\n\n", 2),
    (b"class 1 A\nclinit \n", 2),
    (b"class 1 A\nclinit\nclinit\n", 3),
    (b"class 1 A\nfield 2 n I\nfield 2 m I\nfield 2 n J\n", 4),
    (
        b"class 1 A\nconstructor 1 ()V\nfield 2 n I\nfield 2 n J\n",
        4,
    ),
    (b"class 1 A\ninterface B\ninterface B\n", 3),
    (b"class 1 A\nconstructor 1 ()V\nconstructor 2 ()V\n", 3),
    (
        b"class 1 A\nmethod 1 f ()V\nmethod 1 f ()I\nmethod 2 f ()V\n",
        4,
    ),
    (b"class 1 A\nfield 2 n V\n", 2),
    (b"class 1 A\nfield 2 n L;\n", 2),
    (b"class 1 A\nfield 2 n La\n", 2),
    (b"class 1 A\nfield 2 n [\n", 2),
    (b"class 1 A\nfield 2 n II\n", 2),
    (b"class 1 A\nfield n I\n", 2),
    (b"class 1 A\nmethod 1 f (V)V\n", 2),
    (b"class 1 A\nmethod 1 f ()\n", 2),
    (b"class 1 A\nmethod 1 f I)V\n", 2),
    (b"class 1 A\nmethod 1 f (IV\n", 2),
    (b"class 1 A\nmethod 1 f ()VV\n", 2),
    (b"class 1 A\nfield 2 n I\nmethod 1 f ()V", 3),
    (b"class 1 A\nfields 2 n I\n", 2),
    (b"class 1 A\nbad\nbad\n", 2),
    (b"class 0 A\n", 0),
    (b"class 65535 A\nclinit\n", 0),
    (
        b"class 1 A\nfield 2 n I\nmethod 2 n ()V\nmethod 2 n ()I\ninterface n\n",
        0,
    ),
    (b"class 1 A\nconstructor 1 ([[JLa/b.c;)Lx;\n", 0),
    (b"class 10 (;[)/~!\nfield 0 (;[ Z\n", 0),
];

/// Texts in three parts, of which the second is repeated so many times, and whether they are outlines.
const LENGTHS: [(&[u8], &[u8], usize, &[u8], bool); 12] = [
    (b"class 1 ", b"a", 255, b"\n", true),
    (b"class 1 ", b"a", 256, b"\n", false),
    (b"class 1 A\nmethod 1 ", b"f", 255, b" ()V\n", true),
    (b"class 1 A\nmethod 1 ", b"f", 256, b" ()V\n", false),
    (b"class 1 A\nconstructor 1 (", b"[I", 255, b")V\n", true),
    (b"class 1 A\nconstructor 1 (", b"[I", 256, b")V\n", false),
    (b"class 1 A\nfield 1 n ", b"[", 65534, b"I\n", true),
    (b"class 1 A\nfield 1 n ", b"[", 65535, b"I\n", false),
    (b"class 1 A\nfield 1 n L", b"a", 65533, b";\n", true),
    (b"class 1 A\nfield 1 n L", b"a", 65534, b";\n", false),
    (b"class 1 A\nmethod 1 f (L", b"a", 65530, b";)V\n", true),
    (b"class 1 A\nmethod 1 f (L", b"a", 65531, b";)V\n", false),
];

/// Returns whether a text is an outline of which this is hashed.
fn has_text(alloc: Global, outline: &[u8], text: &[u8]) -> bool {
    match parse_outline(alloc, outline) {
        Ok(outline) => match suid_text(alloc, &outline) {
            Ok(found) => found.as_slice() == text,
            Err(_error) => false,
        },
        Err(_fault) => false,
    }
}

/// Returns whether a text is an outline with this number.
fn has_number(alloc: Global, outline: &[u8], number: i64) -> bool {
    match parse_outline(alloc, outline) {
        Ok(outline) => suid(alloc, &outline).ok() == Some(number),
        Err(_fault) => false,
    }
}

/// Returns the number of a text's first bad line; 0 where there is none.
fn bad_line(alloc: Global, text: &[u8]) -> Option<usize> {
    match parse_outline(alloc, text) {
        Ok(_outline) => Some(0),
        Err(OutlineFault::BadLine { line }) => Some(line),
        Err(OutlineFault::OutOfMemory) => None,
    }
}

/// Returns a text in three parts, of which the second is repeated.
fn repeated(
    alloc: Global,
    front: &[u8],
    part: &[u8],
    count: usize,
    back: &[u8],
) -> Result<ByteList, AllocError> {
    let mut text = ByteList::from_slice(alloc, front)?;
    for _ in 0..count {
        text.append(part)?;
    }
    text.append(back)?;
    Ok(text)
}

/// Returns whether a text in three parts is an outline.
fn is_taken(
    alloc: Global,
    front: &[u8],
    part: &[u8],
    count: usize,
    back: &[u8],
) -> Result<bool, AllocError> {
    let text = repeated(alloc, front, part, count, back)?;
    is_outline(alloc, text.as_slice())
}

#[test]
fn texts_and_numbers(rt: HostRuntime) {
    for (outline, text) in TEXTS {
        must(&rt, has_text(rt.alloc(), outline, text), "the text");
    }
    for (outline, number) in NUMBERS {
        must(&rt, has_number(rt.alloc(), outline, number), "the number");
    }
    for (outline, reordered, number) in REORDERED {
        must(
            &rt,
            numbers_of(rt.alloc(), outline, reordered).ok() == Some((number, number)),
            "the number, twice",
        );
    }
}

#[test]
fn lines_and_lengths(rt: HostRuntime) {
    for (text, line) in LINES {
        must(&rt, bad_line(rt.alloc(), text) == Some(line), "the line");
    }
    for (front, part, count, back, taken) in LENGTHS {
        must(
            &rt,
            is_taken(rt.alloc(), front, part, count, back).ok() == Some(taken),
            "the length",
        );
    }
}

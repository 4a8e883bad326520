//! The output of the commands that ask a server.
ghost use Rattle.std.specs.Prelude.{◌≡◌, ◌∷◌, ◌++◌, [], IfOk, OnOk};
ghost use Rattle.std.specs.Fmt.{signed_decimal};
ghost use Rattle.std.specs.List.{flat_map};
ghost use Rattle.journal.specs.Grammar.{long_text};
ghost use Rattle.rmi_cli.specs.TalkEnds.{shown};
ghost use Rattle.rmi_cli.specs.Talked.{name_line, names_text, reference_text};

use java_shapes::LiveRef;
use journal::put::{put_signed, put_uid};
use object_ids::ObjId;
use sequence::{ByteList, NameList, Units};
use std::alloc::{AllocError, Global};

/// Returns names, one a line.
pub(crate) fn names_text(alloc: Global, names: &NameList) -> Result<ByteList, AllocError>
    ensures { IfOk result (λ text. text ≡ names_text names.now) }
{
    let mut text = ByteList::new(alloc);
    put_names(alloc, &mut text, names.as_slice())?;
    Ok(text)
}

/// Appends the lines of names.
fn put_names(alloc: Global, out: &mut ByteList, names: &[Units]) -> Result<(), AllocError>
    ensures { OnOk result (out.new ≡ out.old ++ flat_map name_line names.now) }
{
    for name in names {
        put_name_line(alloc, out, name)?;
    }
    Ok(())
}

/// Appends the line of a name.
fn put_name_line(alloc: Global, out: &mut ByteList, name: &Units) -> Result<(), AllocError>
    ensures { OnOk result (out.new ≡ out.old ++ name_line name.now) }
{
    put_shown(alloc, out, name)?;
    out.push(b'\n')
}

/// Appends a text in UTF-8, with U+FFFD for each surrogate that has no partner.
pub(crate) fn put_shown(alloc: Global, out: &mut ByteList, text: &Units) -> Result<(), AllocError>
    ensures { OnOk result (out.new ≡ out.old ++ shown text.now) }
{
    let text = String::from_utf16_lossy(alloc, text.as_slice())?;
    out.append(text.as_bytes())
}

/// Returns the line of a reference: its host, its port, and its object.
pub(crate) fn reference_text(alloc: Global, reference: &LiveRef) -> Result<ByteList, AllocError>
    ensures { IfOk result (λ text. text ≡ reference_text reference.now) }
{
    let mut text = ByteList::new(alloc);
    put_reference(alloc, &mut text, reference)?;
    Ok(text)
}

/// Appends the line of a reference.
pub(crate) fn put_reference(
    alloc: Global,
    out: &mut ByteList,
    reference: &LiveRef,
) -> Result<(), AllocError>
    ensures { OnOk result (out.new ≡ out.old ++ reference_text reference.now) }
{
    put_shown(alloc, out, &reference.host)?;
    put_port(out, reference.port)?;
    put_object_line(out, reference.id)
}

/// Appends a blank and a port.
pub(crate) fn put_port(out: &mut ByteList, port: i32) -> Result<(), AllocError>
    ensures { OnOk result (out.new ≡ out.old ++ 32 ∷ signed_decimal port) }
{
    out.push(b' ')?;
    put_signed(out, i64::from(port))
}

/// Appends a blank, an object as N:U/T/C, and a line feed.
fn put_object_line(out: &mut ByteList, object: ObjId) -> Result<(), AllocError>
    ensures { OnOk result (out.new ≡ out.old ++ 32 ∷ long_text object ++ 10 ∷ []) }
{
    out.push(b' ')?;
    put_object_text(out, object)?;
    out.push(b'\n')
}

/// Appends an object as N:U/T/C.
fn put_object_text(out: &mut ByteList, object: ObjId) -> Result<(), AllocError>
    ensures { OnOk result (out.new ≡ out.old ++ long_text object) }
{
    put_signed(out, object.number)?;
    out.push(b':')?;
    put_uid(out, object.space)
}

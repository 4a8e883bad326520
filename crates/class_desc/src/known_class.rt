//! The classes that Java's remote method invocation itself sends.
ghost use Rattle.std.specs.Prelude.{◌≡◌, ◌++◌, ◌∷◌, [], IfOk, OnOk};
ghost use Rattle.class_desc.specs.KnownClass.{parts_of, plain_field, typed_field};

use crate::desc::{SERIALIZABLE, WRITE_METHOD};
use crate::field::TypeCode;
use mod_utf::utf::units_of_ascii;
use sequence::{Sequence, Units};
use std::alloc::{AllocError, Global};

/// A class that the runtime itself sends.
#[derive(Clone, Copy, Debug, PartialEq, Eq)]
pub enum KnownClass {
    /// `java.rmi.server.ObjID`.
    ObjId,
    /// `java.rmi.server.UID`.
    Uid,
    /// `java.rmi.dgc.VMID`.
    Vmid,
    /// `java.rmi.dgc.Lease`.
    Lease,
    /// `byte[]`.
    ByteArray,
    /// `String[]`.
    TextArray,
    /// `ObjID[]`.
    ObjIdArray,
    /// `java.lang.reflect.Proxy`.
    Proxy,
    /// `java.rmi.server.RemoteObjectInvocationHandler`.
    RefHandler,
    /// `java.rmi.server.RemoteObject`.
    RemoteObject,
    /// `java.rmi.RemoteException`.
    RemoteException,
    /// `java.io.IOException`.
    IoException,
    /// `java.lang.Exception`.
    Exception,
    /// `java.lang.Throwable`.
    Throwable,
}

/// A field of a known class, with its type text itself.
#[derive(Debug, Drop)]
pub struct PartField {
    /// The field's type.
    pub code: TypeCode,
    /// The field's name.
    pub name: Units,
    /// The text that names the type of a reference field; empty for a primitive one.
    pub type_text: Units,
}

/// A list of fields of a known class.
pub type PartFields = Sequence<PartField>;

/// The contents of a known class's description, but for its annotation and its superclass.
#[derive(Debug, Drop)]
pub struct ClassParts {
    /// The class's name.
    pub name: Units,
    /// The class's serialVersionUID.
    pub suid: i64,
    /// The sum of the class's flags.
    pub flags: u8,
    /// The class's own fields.
    pub fields: PartFields,
}

/// The units of an ASCII text.
fn units_of(alloc: Global, text: &str) -> Result<Units, AllocError>
    ensures { IfOk result (λ units. units ≡ text.now) }
{
    units_of_ascii(alloc, text.as_bytes())
}

/// Appends a field.
fn put_field(
    alloc: Global,
    fields: &mut PartFields,
    code: TypeCode,
    name: &str,
    type_text: &str,
) -> Result<(), AllocError>
    ensures { OnOk result
        (fields.new ≡ fields.old ++ typed_field code name.now type_text.now ∷ []) }
{
    fields.push(PartField {
        code,
        name: units_of(alloc, name)?,
        type_text: units_of(alloc, type_text)?,
    })
}

fn name_of(which: KnownClass) -> &'static str
    ensures { result.now ≡ (parts_of which).name }
{
    match which {
        KnownClass::ObjId => "java.rmi.server.ObjID",
        KnownClass::Uid => "java.rmi.server.UID",
        KnownClass::Vmid => "java.rmi.dgc.VMID",
        KnownClass::Lease => "java.rmi.dgc.Lease",
        KnownClass::ByteArray => "[B",
        KnownClass::TextArray => "[Ljava.lang.String;",
        KnownClass::ObjIdArray => "[Ljava.rmi.server.ObjID;",
        KnownClass::Proxy => "java.lang.reflect.Proxy",
        KnownClass::RefHandler => "java.rmi.server.RemoteObjectInvocationHandler",
        KnownClass::RemoteObject => "java.rmi.server.RemoteObject",
        KnownClass::RemoteException => "java.rmi.RemoteException",
        KnownClass::IoException => "java.io.IOException",
        KnownClass::Exception => "java.lang.Exception",
        KnownClass::Throwable => "java.lang.Throwable",
    }
}

fn suid_of(which: KnownClass) -> i64
    ensures { result ≡ (parts_of which).suid }
{
    match which {
        KnownClass::ObjId => -6386392263968365220,
        KnownClass::Uid => 1086053664494604050,
        KnownClass::Vmid => -538642295484486218,
        KnownClass::Lease => -5713411624328831948,
        KnownClass::ByteArray => -5984413125824719648,
        KnownClass::TextArray => -5921575005990323385,
        KnownClass::ObjIdArray => -8713620060265225090,
        KnownClass::Proxy => -2222568056686623797,
        KnownClass::RefHandler => 2,
        KnownClass::RemoteObject => -3215090123894869218,
        KnownClass::RemoteException => -5148567311918794206,
        KnownClass::IoException => 7818375828146090155,
        KnownClass::Exception => -3387516993124229948,
        KnownClass::Throwable => -3042686055658047285,
    }
}

fn flags_of(which: KnownClass) -> u8
    ensures { result ≡ (parts_of which).flags }
{
    match which {
        KnownClass::RemoteObject => SERIALIZABLE + WRITE_METHOD,
        KnownClass::Throwable => SERIALIZABLE + WRITE_METHOD,
        _ => SERIALIZABLE,
    }
}

/// Appends a primitive field.
fn put_plain(
    alloc: Global,
    fields: &mut PartFields,
    code: TypeCode,
    name: &str,
) -> Result<(), AllocError>
    ensures { OnOk result (fields.new ≡ fields.old ++ plain_field code name.now ∷ []) }
{
    put_field(alloc, fields, code, name, "")
}

/// Appends a field of a class or an interface.
fn put_object(
    alloc: Global,
    fields: &mut PartFields,
    name: &str,
    type_text: &str,
) -> Result<(), AllocError>
    ensures { OnOk result
        (fields.new ≡ fields.old ++ typed_field TypeCode.Object name.now type_text.now ∷ []) }
{
    put_field(alloc, fields, TypeCode::Object, name, type_text)
}

/// Appends the fields of a known class.
fn put_fields(alloc: Global, fields: &mut PartFields, which: KnownClass) -> Result<(), AllocError>
    ensures { OnOk result (fields.new ≡ fields.old ++ (parts_of which).fields) }
{
    match which {
        KnownClass::ObjId => {
            put_plain(alloc, fields, TypeCode::Long, "objNum")?;
            put_object(alloc, fields, "space", "Ljava/rmi/server/UID;")
        }
        KnownClass::Uid => {
            put_plain(alloc, fields, TypeCode::Short, "count")?;
            put_plain(alloc, fields, TypeCode::Long, "time")?;
            put_plain(alloc, fields, TypeCode::Int, "unique")
        }
        KnownClass::Vmid => {
            put_field(alloc, fields, TypeCode::Array, "addr", "[B")?;
            put_object(alloc, fields, "uid", "Ljava/rmi/server/UID;")
        }
        KnownClass::Lease => {
            put_plain(alloc, fields, TypeCode::Long, "value")?;
            put_object(alloc, fields, "vmid", "Ljava/rmi/dgc/VMID;")
        }
        KnownClass::Proxy => {
            put_object(alloc, fields, "h", "Ljava/lang/reflect/InvocationHandler;")
        }
        KnownClass::RemoteException => {
            put_object(alloc, fields, "detail", "Ljava/lang/Throwable;")
        }
        KnownClass::Throwable => {
            put_object(alloc, fields, "detailMessage", "Ljava/lang/String;")
        }
        _ => Ok(()),
    }
}

/// The contents of a known class's description. It is refused only for want of memory.
pub fn known(alloc: Global, which: KnownClass) -> Result<ClassParts, AllocError>
    ensures { IfOk result (λ parts. parts ≡ parts_of which) }
{
    let name = units_of(alloc, name_of(which))?;
    let mut fields = PartFields::new(alloc);
    put_fields(alloc, &mut fields, which)?;
    Ok(ClassParts {
        name,
        suid: suid_of(which),
        flags: flags_of(which),
        fields,
    })
}

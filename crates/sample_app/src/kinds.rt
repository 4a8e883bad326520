//! The sample kinds and their methods.
ghost use Rattle.std.specs.Prelude.{◌≡◌, Some, IfOk};
ghost use Rattle.method_hash.specs.MethodText.{IsMethod};
ghost use Rattle.sample_app.specs.Kinds.{method_of, echo, counter, maker, sample_kinds};

use call_dispatch::{Book, BookFault, Kind, KindList};
use class_desc::TypeCode;
use method_hash::{CodeList, Method, MethodList};
use mod_utf::utf::units_of_ascii;
use sequence::ByteList;
use std::alloc::{AllocError, Global};

/// The book of the sample kinds, each at its place:
///
/// | kind | interface | methods |
/// |---|---|---|
/// | 0 | `sample.Echo` | `echo(Ljava/lang/Object;)Ljava/lang/Object;` |
/// | 1 | `sample.Counter` | `add(J)J`, `get()J` |
/// | 2 | `sample.Maker` | `make()Lsample/Counter;` |
///
/// It is refused only for want of memory.
pub fn sample_book(alloc: Global) -> Result<Book, AllocError>
    ensures { IfOk result (λ book. book ≡ sample_kinds) }
{
    match Book::new(alloc, kinds_of(alloc)?) {
        Ok(book) => Ok(book),
        Err(BookFault::OutOfMemory) => Err(AllocError),
        Err(BookFault::FloatMethod { kind: _, method: _ }) => unreachable!(),
    }
}

/// The sample kinds in their order.
fn kinds_of(alloc: Global) -> Result<KindList, AllocError>
    ensures { IfOk result (λ kinds. kinds ≡ sample_kinds) }
{
    let mut kinds = KindList::new(alloc);
    kinds.push(echo(alloc)?)?;
    kinds.push(counter(alloc)?)?;
    kinds.push(maker(alloc)?)?;
    Ok(kinds)
}

/// The kind that gives its argument back.
fn echo(alloc: Global) -> Result<Kind, AllocError>
    ensures { IfOk result (λ kind. kind ≡ echo) }
{
    let mut methods = MethodList::new(alloc);
    methods.push(method(
        alloc,
        b"echo(Ljava/lang/Object;)Ljava/lang/Object;",
        b"echo",
        &[TypeCode::Object],
        TypeCode::Object,
    )?)?;
    Ok(Kind {
        interface: units_of_ascii(alloc, b"sample.Echo")?,
        methods,
    })
}

/// The kind that counts.
fn counter(alloc: Global) -> Result<Kind, AllocError>
    ensures { IfOk result (λ kind. kind ≡ counter) }
{
    let mut methods = MethodList::new(alloc);
    methods.push(method(alloc, b"add(J)J", b"add", &[TypeCode::Long], TypeCode::Long)?)?;
    methods.push(method(alloc, b"get()J", b"get", &[], TypeCode::Long)?)?;
    Ok(Kind {
        interface: units_of_ascii(alloc, b"sample.Counter")?,
        methods,
    })
}

/// The kind that makes counters.
fn maker(alloc: Global) -> Result<Kind, AllocError>
    ensures { IfOk result (λ kind. kind ≡ maker) }
{
    let mut methods = MethodList::new(alloc);
    methods.push(method(
        alloc,
        b"make()Lsample/Counter;",
        b"make",
        &[],
        TypeCode::Object,
    )?)?;
    Ok(Kind {
        interface: units_of_ascii(alloc, b"sample.Maker")?,
        methods,
    })
}

/// The method of a text whose parts are these.
fn method(
    alloc: Global,
    text: &[u8],
    name: &[u8],
    params: &[TypeCode],
    returned: TypeCode,
) -> Result<Method, AllocError>
    requires { IsMethod text.now name.now params.now (Some returned) }
    ensures { (is : IsMethod text.now name.now params.now (Some returned)) →
        IfOk result (λ method. method ≡ method_of text.now name.now params.now (Some returned) is) }
{
    Ok(Method {
        name: ByteList::from_slice(alloc, name)?,
        params: CodeList::from_slice(alloc, params)?,
        result: Some(returned),
        text: ByteList::from_slice(alloc, text)?,
    })
}

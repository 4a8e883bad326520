//! The kinds of objects that a connection serves, and how a call finds a method of theirs.
ghost use Rattle.std.specs.Prelude.{◌≡◌, ◌≤◌, ◌<◌, ◌^◌, All, None, Some, length, map, option_map, slice_get, IfOk, IfErr};
ghost use Rattle.std.specs.List.{list_any, position};
ghost use Rattle.std.specs.Ordering.{int_eq};
ghost use Rattle.mod_utf.specs.Utf.{utf};
ghost use Rattle.system_objects.specs.Book.{is_float, returns_float, uses_float, has_float, methods_of, first_with, hashes_of, FaultsBook, AreSystemHashes};
ghost use Rattle.system_ids.specs.SystemMethods.{minus_one};
ghost use Rattle.system_objects.specs.MethodByHead.{registry_numbered, collector_numbered, registry_hashed, collector_hashed, registry_method, collector_method, system_method};
ghost use Rattle.system_objects.specs.declared.book.BookFault.TheVariants.{OutOfMemory};

use class_desc::TypeCode;
use jrmp_frames::CallHead;
use method_hash::{CollectorMethod, Method, MethodList, RegistryMethod, hash};
use sequence::{I64List, Sequence, TryCopy, Units};
use std::alloc::{AllocError, AllocFailed, Global};
use std::marker::Model;
use system_ids::{SystemMethod, hash_by, is_registry};

/// A kind of objects.
#[derive(Debug)]
pub struct Kind {
    /// The name of the interface by which clients know its objects.
    pub interface: Units,
    /// The methods that clients may call.
    pub methods: MethodList,
}

// Written out, so that whoever owns one has one call at each exit, and not the drop of each field.
impl Drop for Kind {
    fn drop(self) {
        let Kind { interface, methods } = self;
        drop(interface);
        drop(methods);
    }
}

impl TryCopy for Kind {
    fn try_copy(&self, alloc: Global) -> Result<Kind, AllocError> {
        Ok(Kind {
            interface: self.interface.copy(alloc)?,
            methods: self.methods.copy(alloc)?,
        })
    }
}

/// A list of kinds.
pub type KindList = Sequence<Kind>;

/// Why kinds make no book.
#[derive(Clone, Copy, Debug, PartialEq, Eq)]
pub enum BookFault {
    /// This method of this kind, each counted from 0, is the first that has a parameter or a result of the type `float` or `double`.
    FloatMethod { kind: u32, method: u32 },
    /// There was no memory.
    OutOfMemory,
}

impl From<AllocError> for BookFault {
    ghost use Rattle.system_objects.specs.declared.book.BookFault.TheVariants.{OutOfMemory};

    ghost from_gives = { λ _ fault. fault ≡ OutOfMemory };

    fn from(_error: AllocError) -> BookFault {
        BookFault::OutOfMemory
    }
}

impl<T: Drop> From<AllocFailed<T>> for BookFault {
    ghost use Rattle.system_objects.specs.declared.book.BookFault.TheVariants.{OutOfMemory};

    ghost from_gives = { λ _ fault. fault ≡ OutOfMemory };

    fn from(_error: AllocFailed<T>) -> BookFault {
        BookFault::OutOfMemory
    }
}

/// The hashes of the methods of the registry and of the collector.
#[derive(Clone, Copy, Debug)]
struct SystemHashes {
    bind: i64,
    list: i64,
    lookup: i64,
    rebind: i64,
    unbind: i64,
    clean: i64,
    dirty: i64,
}

/// The kinds of objects that are served, with the hashes of their methods. Contracts see it as the list of its kinds.
#[derive(Debug)]
pub struct Book {
    kinds: KindList,
    hashes: Sequence<I64List>,
    system: SystemHashes,
}

// Written out, so that whoever owns one has one call at each exit, and not the drop of each field.
impl Drop for Book {
    fn drop(self) {
        let Book {
            kinds,
            hashes,
            system: _,
        } = self;
        drop(kinds);
        drop(hashes);
    }
}

impl Model for Book {
    ghost use Rattle.std.specs.Prelude.{List};
    ghost use Rattle.system_objects.specs.declared.book.Kind.{Kind};
    ghost use Rattle.system_objects.specs.Book.{IsBook};

    ghost Value = { List Kind };

    ghost view = { λ b. b.kinds };

    ghost invariant = { λ b. IsBook b.kinds b.hashes b.system };
}

/// Returns whether values of the type are floats or doubles.
fn is_float(code: TypeCode) -> bool
    ensures { result ≡ is_float code }
{
    match code {
        TypeCode::Double | TypeCode::Float => true,
        _ => false,
    }
}

/// Returns whether a result is a float or a double.
fn returns_float(result_type: Option<TypeCode>) -> bool
    ensures { result ≡ returns_float result_type }
{
    match result_type {
        Some(code) => is_float(code),
        None => false,
    }
}

/// Returns whether some parameter is a float or a double.
fn takes_float(params: &[TypeCode]) -> bool
    ensures { result ≡ list_any is_float params.now }
{
    params.iter().any(|code| is_float(*code))
}

/// Returns whether a method has a parameter or a result that is a float or a double.
fn uses_float(method: &Method) -> bool
    ensures { result ≡ uses_float method.now }
{
    takes_float(method.params.as_slice()) || returns_float(method.result)
}

/// The first of these methods that has a parameter or a result that is a float or a double.
fn first_float(methods: &[Method]) -> Option<usize>
    ensures { result ≡ position uses_float methods.now }
{
    methods.iter().position(|method| uses_float(method))
}

/// Returns whether a kind has a method with a parameter or a result that is a float or a double.
fn has_float(kind: &Kind) -> bool
    ensures { result ≡ has_float kind.now }
{
    kind.methods
        .as_slice()
        .iter()
        .any(|method| uses_float(method))
}

/// The first kind that has such a method.
fn first_kind(kinds: &[Kind]) -> Option<usize>
    ensures { result ≡ position has_float kinds.now }
{
    kinds.iter().position(|kind| has_float(kind))
}

/// The hashes of a kind's methods.
fn hashes_in(alloc: Global, kind: &Kind) -> Result<I64List, AllocError>
    ensures { IfOk result (λ hashes. hashes ≡ hashes_of kind.now) }
{
    let mut hashes = I64List::new(alloc);
    for method in kind.methods.as_slice() {
        hashes.push(hash(method))?;
    }
    Ok(hashes)
}

/// The hashes of the methods of each kind.
fn hashes_in_all(alloc: Global, kinds: &[Kind]) -> Result<Sequence<I64List>, BookFault>
    ensures ok { IfOk result (λ hashes. hashes ≡ map hashes_of kinds.now) }
    ensures err { IfErr result (λ fault. fault ≡ OutOfMemory) }
{
    let mut all = Sequence::new(alloc);
    for kind in kinds {
        all.push(hashes_in(alloc, kind)?)?;
    }
    Ok(all)
}

/// The hashes of the methods of the registry and of the collector.
fn system_hashes() -> SystemHashes
    ensures { AreSystemHashes result }
{
    SystemHashes {
        bind: hash_by(SystemMethod::Registry(RegistryMethod::Bind)),
        list: hash_by(SystemMethod::Registry(RegistryMethod::List)),
        lookup: hash_by(SystemMethod::Registry(RegistryMethod::Lookup)),
        rebind: hash_by(SystemMethod::Registry(RegistryMethod::Rebind)),
        unbind: hash_by(SystemMethod::Registry(RegistryMethod::Unbind)),
        clean: hash_by(SystemMethod::Collector(CollectorMethod::Clean)),
        dirty: hash_by(SystemMethod::Collector(CollectorMethod::Dirty)),
    }
}

/// Returns whether two hashes are the same.
fn same(a: &i64, b: &i64) -> bool
    ensures { result ≡ int_eq a.now b.now }
{
    *a == *b
}

/// Returns whether the operation is the one beside which a method is called by its hash.
fn is_by_hash(operation: &i32) -> bool
    ensures { result ≡ int_eq operation.now minus_one }
{
    *operation == -1
}

/// The method of the registry with an operation number.
fn registry_numbered(operation: i32) -> Option<SystemMethod>
    ensures { result ≡ registry_numbered operation }
{
    match RegistryMethod::of_operation(operation) {
        Some(method) => Some(SystemMethod::Registry(method)),
        None => None,
    }
}

/// The method of the collector with an operation number.
fn collector_numbered(operation: i32) -> Option<SystemMethod>
    ensures { result ≡ collector_numbered operation }
{
    match CollectorMethod::of_operation(operation) {
        Some(method) => Some(SystemMethod::Collector(method)),
        None => None,
    }
}

/// The first method of the registry with a hash.
fn registry_hashed(hashes: &SystemHashes, hash: &i64) -> Option<SystemMethod>
    requires { AreSystemHashes hashes.now }
    ensures { result ≡ registry_hashed hash.now }
{
    if same(&hashes.bind, hash) {
        Some(SystemMethod::Registry(RegistryMethod::Bind))
    } else if same(&hashes.list, hash) {
        Some(SystemMethod::Registry(RegistryMethod::List))
    } else if same(&hashes.lookup, hash) {
        Some(SystemMethod::Registry(RegistryMethod::Lookup))
    } else if same(&hashes.rebind, hash) {
        Some(SystemMethod::Registry(RegistryMethod::Rebind))
    } else if same(&hashes.unbind, hash) {
        Some(SystemMethod::Registry(RegistryMethod::Unbind))
    } else {
        None
    }
}

/// The first method of the collector with a hash.
fn collector_hashed(hashes: &SystemHashes, hash: &i64) -> Option<SystemMethod>
    requires { AreSystemHashes hashes.now }
    ensures { result ≡ collector_hashed hash.now }
{
    if same(&hashes.clean, hash) {
        Some(SystemMethod::Collector(CollectorMethod::Clean))
    } else if same(&hashes.dirty, hash) {
        Some(SystemMethod::Collector(CollectorMethod::Dirty))
    } else {
        None
    }
}

/// The method of the registry that a call names.
fn registry_method(hashes: &SystemHashes, head: &CallHead) -> Option<SystemMethod>
    requires { AreSystemHashes hashes.now }
    ensures { result ≡ registry_method head.now.operation head.now.hash }
{
    if is_by_hash(&head.operation) {
        registry_hashed(hashes, &head.hash)
    } else {
        registry_numbered(head.operation)
    }
}

/// The method of the collector that a call names.
fn collector_method(hashes: &SystemHashes, head: &CallHead) -> Option<SystemMethod>
    requires { AreSystemHashes hashes.now }
    ensures { result ≡ collector_method head.now.operation head.now.hash }
{
    if is_by_hash(&head.operation) {
        collector_hashed(hashes, &head.hash)
    } else {
        collector_numbered(head.operation)
    }
}

/// The place of the first of these hashes that is this one.
fn first_hash(hashes: &[i64], hash: i64) -> Option<usize>
    ensures { result ≡ position (λ other. int_eq other hash) hashes.now }
{
    hashes.iter().position(|other| *other == hash)
}

/// Returns the fault of the kind at this index. It is the first kind that has a method with floats.
fn float_fault(kinds: &[Kind], kind: usize) -> BookFault
    requires first { position has_float kinds.now ≡ Some kind }
    requires few_kinds { length kinds.now < 2 ^ 32 }
    requires few_methods { All (λ kind. length kind.methods < 2 ^ 32) kinds.now }
    ensures { FaultsBook kinds.now result }
{
    match first_float(kinds[kind].methods.as_slice()) {
        Some(method) => BookFault::FloatMethod {
            kind: kind as u32,
            method: method as u32,
        },
        None => unreachable!(),
    }
}

impl Book {
    /// The book of these kinds. `FloatMethod` comes exactly where some method has a parameter or a result of the type `float` or
    /// `double`, and names the first such method of the first such kind.
    pub fn new(alloc: Global, kinds: KindList) -> Result<Book, BookFault>
        requires few_kinds { length kinds < 2 ^ 32 }
        requires few_methods { All (λ kind. length kind.methods < 2 ^ 32) kinds }
        requires interfaces { All (λ kind. length (utf kind.interface) ≤ 65535) kinds }
        ensures kinds { IfOk result (λ book. book ≡ kinds) }
        ensures none { IfOk result (λ book. position has_float kinds ≡ None) }
        ensures float { IfErr result (FaultsBook kinds) }
    {
        if let Some(kind) = first_kind(kinds.as_slice()) {
            return Err(float_fault(kinds.as_slice(), kind));
        }
        let hashes = hashes_in_all(alloc, kinds.as_slice())?;
        Ok(Book {
            kinds,
            hashes,
            system: system_hashes(),
        })
    }

    /// The kind at a place; None where there is none.
    pub fn kind(&self, kind: u32) -> Option<&Kind>
        ensures { slice_get self.now kind ≡ option_map (λ k. k.now) result }
    {
        self.kinds.as_slice().get(kind as usize)
    }

    /// The place of the first method of a kind that has this hash. None exactly where none has it; a kind that is no place in the book has
    /// no methods.
    pub fn find(&self, kind: u32, hash: i64) -> Option<u32>
        ensures { result ≡ first_with hash (methods_of self.now kind) }
    {
        let hashes = self.hashes.as_slice().get(kind as usize)?;
        let place = first_hash(hashes.as_slice(), hash)?;
        Some(place as u32)
    }

    /// The method at a place of a kind; None where there is none.
    pub fn method(&self, kind: u32, place: u32) -> Option<&Method>
        ensures { slice_get (methods_of self.now kind) place ≡ option_map (λ m. m.now) result }
    {
        let kind = self.kind(kind)?;
        kind.methods.as_slice().get(place as usize)
    }

    /// The method that a call of the registry or the collector names: by its operation number, whatever hash stands beside it, or beside the
    /// operation -1 by its hash. None exactly where it names none.
    pub fn system_method(&self, head: &CallHead) -> Option<SystemMethod>
        ensures { result ≡ system_method head.now }
    {
        if is_registry(head.id) {
            registry_method(&self.system, head)
        } else {
            collector_method(&self.system, head)
        }
    }
}

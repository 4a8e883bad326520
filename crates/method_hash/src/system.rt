//! The methods of the two interfaces that every server has, by the numbers with which stubs of JDK 1.1 call them.
ghost use Rattle.std.specs.Prelude.{◌≡◌, IfSome, IfNone};
ghost use Rattle.method_hash.specs.System.{registry_number, registry_text, collector_number, collector_text};
ghost use Rattle.method_hash.specs.declared.system.CollectorMethod.{CollectorMethod};
ghost use Rattle.method_hash.specs.declared.system.RegistryMethod.{RegistryMethod};

/// A method of `java.rmi.registry.Registry` (Java RMI Specification, 6.1).
#[derive(Clone, Copy, Debug, PartialEq, Eq)]
pub enum RegistryMethod {
    /// Binds a name that stands for nothing yet.
    Bind,
    /// Lists the names.
    List,
    /// Finds the object for which a name stands.
    Lookup,
    /// Binds a name, whatever it stood for.
    Rebind,
    /// Lets a name stand for nothing.
    Unbind,
}

/// A method of `java.rmi.dgc.DGC` (Java RMI Specification, 9.1).
#[derive(Clone, Copy, Debug, PartialEq, Eq)]
pub enum CollectorMethod {
    /// A client gives objects up.
    Clean,
    /// A client takes hold of objects.
    Dirty,
}

impl RegistryMethod {
    /// The method of an operation number, from 0 to 4; None exactly for any other.
    pub fn of_operation(operation: i32) -> Option<RegistryMethod>
        ensures some { IfSome result (λ method. operation ≡ registry_number method) }
        ensures none { IfNone result
            ((method : RegistryMethod) → operation ≡ registry_number method → ⊥) }
    {
        match operation {
            0 => Some(RegistryMethod::Bind),
            1 => Some(RegistryMethod::List),
            2 => Some(RegistryMethod::Lookup),
            3 => Some(RegistryMethod::Rebind),
            4 => Some(RegistryMethod::Unbind),
            _ => None,
        }
    }

    /// The method's text.
    pub fn text(self) -> &'static [u8]
        ensures { result.now ≡ registry_text self }
    {
        match self {
            RegistryMethod::Bind => b"bind(Ljava/lang/String;Ljava/rmi/Remote;)V",
            RegistryMethod::List => b"list()[Ljava/lang/String;",
            RegistryMethod::Lookup => b"lookup(Ljava/lang/String;)Ljava/rmi/Remote;",
            RegistryMethod::Rebind => b"rebind(Ljava/lang/String;Ljava/rmi/Remote;)V",
            RegistryMethod::Unbind => b"unbind(Ljava/lang/String;)V",
        }
    }
}

impl CollectorMethod {
    /// The method of an operation number, 0 or 1; None exactly for any other.
    pub fn of_operation(operation: i32) -> Option<CollectorMethod>
        ensures some { IfSome result (λ method. operation ≡ collector_number method) }
        ensures none { IfNone result
            ((method : CollectorMethod) → operation ≡ collector_number method → ⊥) }
    {
        match operation {
            0 => Some(CollectorMethod::Clean),
            1 => Some(CollectorMethod::Dirty),
            _ => None,
        }
    }

    /// The method's text.
    pub fn text(self) -> &'static [u8]
        ensures { result.now ≡ collector_text self }
    {
        match self {
            CollectorMethod::Clean => b"clean([Ljava/rmi/server/ObjID;JLjava/rmi/dgc/VMID;Z)V",
            CollectorMethod::Dirty => {
                b"dirty([Ljava/rmi/server/ObjID;JLjava/rmi/dgc/Lease;)Ljava/rmi/dgc/Lease;"
            }
        }
    }
}

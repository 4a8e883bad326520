//! The methods of the registry and the collector.
ghost use Rattle.std.specs.Prelude.{◌≡◌};
ghost use Rattle.system_ids.specs.SystemMethods.{text_of, hash_by, params_of};

use class_desc::TypeCode;
use method_hash::{CollectorMethod, RegistryMethod, hash_text};

/// The hash of the interface `java.rmi.registry.Registry`, which stands beside a method's operation number in a call.
pub const REGISTRY_INTERFACE: i64 = 4_905_912_898_345_647_071;

/// The hash of the interface `java.rmi.dgc.DGC`, which stands beside a method's operation number in a call.
pub const COLLECTOR_INTERFACE: i64 = -669_196_253_586_618_813;

/// A method of one of the two objects.
#[derive(Clone, Copy, Debug, PartialEq, Eq)]
pub enum SystemMethod {
    /// A method of the registry.
    Registry(RegistryMethod),
    /// A method of the collector.
    Collector(CollectorMethod),
}

/// The text of a method.
fn text_of(method: SystemMethod) -> &'static [u8]
    ensures { result.now ≡ text_of method }
{
    match method {
        SystemMethod::Registry(method) => method.text(),
        SystemMethod::Collector(method) => method.text(),
    }
}

/// The hash by which a method is called.
#[tactic(auto, unfolding(crate::specs::SystemMethods::hash_by))]
pub fn hash_by(method: SystemMethod) -> i64
    ensures { result ≡ hash_by method }
{
    hash_text(text_of(method))
}

/// The types of a method's parameters.
pub fn params_of(method: SystemMethod) -> &'static [TypeCode]
    ensures { result.now ≡ params_of method }
{
    match method {
        SystemMethod::Registry(RegistryMethod::Bind) => &[TypeCode::Object, TypeCode::Object],
        SystemMethod::Registry(RegistryMethod::List) => &[],
        SystemMethod::Registry(RegistryMethod::Lookup) => &[TypeCode::Object],
        SystemMethod::Registry(RegistryMethod::Rebind) => &[TypeCode::Object, TypeCode::Object],
        SystemMethod::Registry(RegistryMethod::Unbind) => &[TypeCode::Object],
        SystemMethod::Collector(CollectorMethod::Clean) => &[
            TypeCode::Array,
            TypeCode::Long,
            TypeCode::Object,
            TypeCode::Boolean,
        ],
        SystemMethod::Collector(CollectorMethod::Dirty) => {
            &[TypeCode::Array, TypeCode::Long, TypeCode::Object]
        }
    }
}

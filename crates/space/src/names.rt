//! The effects of requests on the leases and the names, in the last step that may be refused.
ghost use Rattle.std.specs.Prelude.{◌≡◌, ◌<◌, ◌++◌, length, true, option_and_then, OnOk, OnErr};
ghost use Rattle.history.specs.LeaseCalls.{call_with};
ghost use Rattle.history.specs.Names.{name_in, is_name_change};
ghost use Rattle.history.specs.declared.limits.TheConstants.{END_OF_TIME};
ghost use Rattle.dgc_server.specs.StandsForCalls.{StandsFor};
ghost use Rattle.export_table.specs.ExportRows.{is_exported};
ghost use Rattle.rmi_registry.specs.Bindings.{object_of, with_binding};
ghost use Rattle.space.specs.Acts.{ForEachLogBy, acted_names, binding_refusal, name_refusal, told_refusal, Agrees};
ghost use Rattle.space.specs.Faults.{unbound_for};

use crate::calls::tell;
use crate::tables::Tables;
use history::{Ask, Name, Refused};
use object_ids::ObjId;
use rmi_registry::{NameFault, Names};
use std::alloc::Global;

impl Tables {
    /// Tells the lease table of an ask at a moment, and binds or unbinds its name. After a refusal all is as it was.
    pub(crate) fn settle(&mut self, effective: bool, now: u64, ask: &Ask) -> Result<(), Refused>
        requires { now < END_OF_TIME }
        ensures ok { OnOk result
            (ForEachLogBy now self.old.leases (λ lease calls. StandsFor lease self.new.leases now
            (call_with (is_exported self.old.exports.rows) now ask.now ++ calls))) }
        ensures names { OnOk result
            (self.new.names ≡ acted_names effective ask.now self.old.names) }
        ensures refusal { ForEachLogBy now self.old.leases (λ lease calls. Agrees
            (told_refusal lease now calls
            (call_with (is_exported self.old.exports.rows) now ask.now) (length self.old.names)
            (option_and_then (object_of self.old.names) (name_in ask.now)) effective ask.now)
            result) }
        ensures rest { self.new
            ≡ record self.old { leases = self.new.leases; names = self.new.names } }
        ensures err { OnErr result (self.new ≡ self.old) }
    {
        if changes_name(ask) {
            rename(self.alloc, &mut self.names, effective, ask)?;
            self.leases.lapse(now);
            Ok(())
        } else {
            tell(self.alloc, &mut self.leases, &self.exports, now, ask)
        }
    }
}

/// Returns whether a request, where it is effective, changes what a name stands for.
fn changes_name(ask: &Ask) -> bool
    ensures { result ≡ is_name_change ask.now }
{
    match ask {
        Ask::Bind { name: _, object: _ } => true,
        Ask::Rebind { name: _, object: _ } => true,
        Ask::Unbind { name: _ } => true,
        _ => false,
    }
}

/// Binds or unbinds the name in an ask. After a refusal the names are as they were.
fn rename(alloc: Global, names: &mut Names, effective: bool, ask: &Ask) -> Result<(), Refused>
    ensures ok { OnOk result (names.new ≡ acted_names effective ask.now names.old) }
    ensures refusal { Agrees
        (name_refusal (length names.old) (option_and_then (object_of names.old) (name_in ask.now))
        effective ask.now) result }
    ensures err { OnErr result (names.new ≡ names.old) }
{
    if !effective {
        return Ok(());
    }
    match ask {
        Ask::Bind { name, object } => bind(alloc, names, name, *object),
        Ask::Rebind { name, object } => bind(alloc, names, name, *object),
        Ask::Unbind { name } => {
            let _stood = names.unbind(name);
            Ok(())
        }
        _ => Ok(()),
    }
}

/// Binds a name, whatever it stood for.
fn bind(alloc: Global, names: &mut Names, name: &Name, object: ObjId) -> Result<(), Refused>
    ensures ok { OnOk result (names.new ≡ with_binding names.old name.now object) }
    ensures refusal { Agrees
        (binding_refusal (length names.old) (object_of names.old name.now) true) result }
    ensures err { OnErr result (names.new ≡ names.old) }
{
    let name = name.copy(alloc)?;
    match names.rebind(name, object) {
        Ok(_stood) => Ok(()),
        Err(fault) => Err(unbound_for(fault)),
    }
}

/// The refusal of an event whose name is not bound.
fn unbound_for(fault: NameFault) -> Refused
    ensures { result ≡ unbound_for fault }
{
    match fault {
        NameFault::Full(kind) => Refused::Full(kind),
        // a name that is bound anew has no other fault but want of memory
        _ => Refused::OutOfMemory,
    }
}

//! The entries of a link's turns, which are kept or exist in proofs alone.
ghost use Rattle.std.specs.Prelude.{◌≡◌, ◌<◌, ◌^◌, IfSome};
ghost use Rattle.ports.specs.Balance.{calls_in};
ghost use Rattle.conn_server.specs.LinkForms.{entries_in};

use ports::{PortEntries, ToldLog};
use std::marker::Model;
use std::snapshot::Snapshot;

/// Entries of either form. A snapshot takes no bytes.
#[derive(Drop)]
enum Form {
    Kept(PortEntries),
    Told(Snapshot<ToldLog>),
}

/// The entries of a link's turns, which are kept or exist in proofs alone. Contracts see the list of them.
pub struct LinkEntries {
    form: Form,
    /// The number of entries that began a call, where it is below 2^64.
    calls: u64,
    ghost counted: { calls_in (entries_in form) < 2 ^ 64 → calls ≡ calls_in (entries_in form) },
}

// Written out, so that a function that owns one has one call at each exit.
impl Drop for LinkEntries {
    fn drop(self) {
        let LinkEntries { form, calls: _ } = self;
        drop(form);
    }
}

impl Model for LinkEntries {
    ghost use Rattle.std.specs.Prelude.{List};
    ghost use Rattle.space.specs.declared.asked.Asked.{Asked};
    ghost use Rattle.conn_server.specs.LinkForms.{entries_in};

    ghost Value = { List Asked };

    ghost view = { λ e. entries_in e.form };
}

impl LinkEntries {
    /// Entries that are kept.
    pub fn of_kept(entries: PortEntries) -> LinkEntries
        ensures { result ≡ entries }
    {
        let calls = entries.calls();
        LinkEntries {
            form: Form::Kept(entries),
            calls,
        }
    }

    /// Entries that exist in proofs alone.
    pub fn of_told(log: ToldLog) -> LinkEntries
        ensures { result ≡ log }
    {
        let calls = log.calls();
        let shown = Snapshot::of(&log);
        drop(log);
        LinkEntries {
            form: Form::Told(shown),
            calls,
        }
    }

    /// Returns the entries, where they are kept.
    pub fn kept(&self) -> Option<&PortEntries>
        ensures { IfSome result (λ entries. entries.now ≡ self.now) }
    {
        match &self.form {
            Form::Kept(entries) => Some(entries),
            Form::Told(_log) => None,
        }
    }

    /// Returns the number of entries that began a call, where it is below 2^64.
    pub fn calls(&self) -> u64
        ensures { calls_in self.now < 2 ^ 64 → result ≡ calls_in self.now }
    {
        self.calls
    }
}

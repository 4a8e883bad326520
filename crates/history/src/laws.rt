//! Laws of whole histories. They follow from the definitions, which go by a history's newest place.
ghost use Rattle.std.specs.Prelude.{◌≡◌, ◌++◌, List};
ghost use Rattle.history.specs.declared.asks.Event.{Event};
ghost use Rattle.history.specs.declared.asks.SpaceConfig.{SpaceConfig};
ghost use Rattle.history.specs.Collector.{TableCollects, rows_after_each};
ghost use Rattle.history.specs.Laws.{LeaseNeverFalls, LeaseLastsAsGranted, GrantIsWithin, ConfiguredIsGranted, TableIsKept, NextIsCounted, IdsAreInOrder, AwaitsSinceReturn, StandsForLast, NamesInOrder, NamedIsExported, RunningIsCounted, RunningIsSummed, AllRunningIsCounted, RunningIsSome, GoneSinceLast};
ghost use Rattle.history.specs.Places.{History};
ghost use Rattle.history.specs.Table.{places, table, with_event};

/// The table has those objects that are kept at every prefix of the history from their export on.
pub fn the_table_is_what_was_kept_since_its_export()
    ensures { (config : SpaceConfig) (events : List Event) → TableIsKept config events }
{}

/// Objects are numbered in the order of their export, so no identifier is given twice: the k-th has the identifier of this number, and the next one comes
/// after all that were ever exported.
pub fn objects_are_numbered_as_exported()
    ensures next { (h : History) → NextIsCounted h }
    ensures ids { (config : SpaceConfig) (events : List Event) → IdsAreInOrder config events }
{}

/// A reference awaits where, since the last place that returned it, its time to acknowledge has not ended and no
/// acknowledgement has come.
pub fn a_reference_awaits_since_its_last_return()
    ensures { (config : SpaceConfig) (events : List Event) → AwaitsSinceReturn config events }
{}

/// No lease call shortens a lease. After a dirty it lasts at least as long as the dirty was granted, which is never more
/// than the configured lease, and is the configured lease where the dirty asks for it.
pub fn a_lease_never_falls()
    ensures falls { LeaseNeverFalls }
    ensures lasts { LeaseLastsAsGranted }
    ensures within { GrantIsWithin }
    ensures configured { ConfiguredIsGranted }
{}

/// A name stands for what the last effective Bind, Rebind or Unbind of it says, and the names stand in the order of
/// the places that begin them.
pub fn a_name_stands_for_its_last_change()
    ensures standing { (h : History) → StandsForLast h }
    ensures order { (config : SpaceConfig) (events : List Event) → NamesInOrder config events }
{}

/// An object is exported as long as a name stands for it.
pub fn what_a_name_stands_for_is_exported()
    ensures { (config : SpaceConfig) (events : List Event) → NamedIsExported config events }
{}

/// The running calls of a connection are its effective begins less its effective ends, and so are those of all
/// connections, which are the sum of the calls of each; some call of an object runs where some connection runs one.
pub fn running_calls_are_begins_less_ends()
    ensures one { (config : SpaceConfig) (events : List Event) → RunningIsCounted config events }
    ensures all { (config : SpaceConfig) (events : List Event) → AllRunningIsCounted config events }
    ensures sum { (config : SpaceConfig) (events : List Event) → RunningIsSummed config events }
    ensures some { (config : SpaceConfig) (events : List Event) → RunningIsSome config events }
{}

/// An object that an event reports as gone was withdrawn after the last event that is no Abandon.
pub fn what_is_gone_was_withdrawn_since_the_last_turn()
    ensures { (config : SpaceConfig) (events : List Event) (e : Event)
        → GoneSinceLast config events e }
{}

/// One event: the table keeps those of its objects, and of the exported ones, that there is a reason to keep, and the others are withdrawn.
pub fn the_collector_keeps_what_is_needed()
    ensures { (config : SpaceConfig) (h : List Event) (e : Event)
        → TableCollects config h e (with_event h e) }
{}

/// Lists of events: the rows that events leave of a history's table, one event after the other, are those of the table after them.
pub fn the_table_is_what_each_event_leaves()
    ensures { (config : SpaceConfig) (h events : List Event)
        → rows_after_each config h (table config (places config h)) events
        ≡ table config (places config (h ++ events)) }
{}

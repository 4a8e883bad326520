//! Laws of export tables: that what their calls do to waits and rows is what an event does to a history. Each function does nothing, and its
//! contract is the law.
ghost use Rattle.export_table.specs.StandsForHistory.{NoneAwaits, WaitingAwaits, WaitingStands, ReturnLists, AckEnds, OthersLeaveWaits, RowsCount, BeginCounts, EndCounts, OthersLeaveRows, BindPins, RebindPins, UnbindUnpins, ExportsAreAdded, ExportsAreCounted, RowsAreKept};

/// The waits that calls of a table leave stand for the references of a history that await their acknowledgement: where nothing was returned
/// none wait; a return lists its references (`wait_for`), an acknowledgement ends the waits of its return (`ack`), and as time passes those that
/// ended are forgotten (`withdraw`). Other events leave them. What waits then is what awaits.
pub fn waits_are_awaiting()
    ensures none { NoneAwaits }
    ensures awaits { WaitingAwaits }
    ensures time { WaitingStands }
    ensures returns { ReturnLists }
    ensures acknowledges { AckEnds }
    ensures others { OthersLeaveWaits }
{}

/// The rows that calls of a table leave count the running calls of a history: a call that begins is one more (`begin`), and one that ends is
/// one less (`end`). Events that change no name either leave them.
pub fn rows_count_running()
    ensures counts { RowsCount }
    ensures begins { BeginCounts }
    ensures ends { EndCounts }
    ensures others { OthersLeaveRows }
{}

/// The pins that calls of a table leave are the names that stand for its objects: a name that is bound is one more (`pin`), one that is
/// unbound is one less (`unpin`), and one that is bound anew is both.
pub fn rows_count_names()
    ensures binds { BindPins }
    ensures rebinds { RebindPins }
    ensures unbinds { UnbindUnpins }
{}

/// The objects that an event exports have the rows that `add` makes of them, one call after the other: they are numbered on from all that were
/// added before, no call of them runs, and no name stands for them.
pub fn exports_are_added()
    ensures rows { ExportsAreAdded }
    ensures count { ExportsAreCounted }
{}

/// Rows that `withdraw` keeps are those that the collector keeps: at the present moment a row is kept, by its pins and calls, by the waits and by the clients
/// that hold its object, exactly where the history keeps the object.
pub fn rows_are_kept()
    ensures { RowsAreKept }
{}

//! Laws of the names of a registry: that what its calls do to the bindings is what an event does to the names of a history. Each function does
//! nothing, and its contract is the law.
ghost use Rattle.rmi_registry.specs.StandsForHistory.{NoneBound, NamesCount, BindAdds, RebindChanges, UnbindTakes, OthersLeaveNames};

/// The bindings that calls of a registry leave are the names of a history: an effective Bind adds its name (`bind`), a Rebind gives it another
/// object (`rebind`), an Unbind takes it away (`unbind`), and other events leave them. There are as many as the history has names, and as many of an
/// object as stand for it (`len`, `binds`).
pub fn bindings_are_the_names_of_a_history()
    ensures none { NoneBound }
    ensures counts { NamesCount }
    ensures binds { BindAdds }
    ensures rebinds { RebindChanges }
    ensures unbinds { UnbindTakes }
    ensures others { OthersLeaveNames }
{}

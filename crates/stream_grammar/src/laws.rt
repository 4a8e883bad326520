//! Laws of streams and graphs, for those who read contracts: these functions do nothing.
ghost use Rattle.stream_grammar.specs.Faults.{ComesToOne, FaultsStand};
ghost use Rattle.stream_grammar.specs.StreamLaws.{HaveOneReading, AreOfGraphs, AreRead, HavePartsByChain};

/// Bytes are a stream of at most one graph.
pub fn streams_have_one_reading()
    ensures { HaveOneReading }
{}

/// A stream is always a stream of a graph.
pub fn streams_are_of_graphs()
    ensures { AreOfGraphs }
{}

/// Reading from left to right answers exactly the graph that bytes are a stream of.
pub fn streams_are_read()
    ensures { AreRead }
{}

/// Where reading answers a fault, the bytes show it at its position: the byte that differs from the magic number, a number whose
/// highest bit is set, a spelling that is none; or a reference to which reading comes, with so many handles given, which is refused:
/// a byte that begins none of its place, a handle that was not given, that of a node that the place does not take, that of a
/// description that is unread, a construct whose class has none such, or past the limits, or a description and the first rule that it
/// breaks: a field's letter or type text, the flags, the fields' order. Of bytes that end too early no front is refused, and with
/// some bytes behind them reading goes on past their end.
pub fn faults_stand_in_bytes()
    ensures { FaultsStand }
{}

/// Bytes determine all that reading knows of the reference at a position, as the number of handles that were given.
pub fn reading_comes_to_one()
    ensures { ComesToOne }
{}

/// An object has a part for each description of its class's chain, unless its class is externalizable.
pub fn objects_have_parts_by_chain()
    ensures { HavePartsByChain }
{}

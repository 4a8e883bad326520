//! The steps of a world.

/// A step of a world. Clients are numbered from 0, and so are the lease calls of all clients, in the order in which they were sent.
#[derive(Clone, Copy, Debug, PartialEq, Eq)]
pub enum Step {
    /// The moment becomes a later one, or stays.
    At {
        /// The moment in milliseconds. It is a BadStep where it is below the present one, or 2^62 or above.
        moment: u64,
    },
    /// The server begins a call of its first object and returns a new object.
    Make,
    /// A return arrived.
    Ack {
        /// The number of the `Make` that returned, from 0. It is a BadStep where it is 2^63 or above.
        make: u64,
    },
    /// A client registers a reference.
    Register {
        /// The client.
        client: u8,
        /// The object's number at the server.
        number: i64,
    },
    /// A client drops a reference, and sends the clean call that tells the server.
    Release {
        /// The client.
        client: u8,
        /// The object's number at the server.
        number: i64,
    },
    /// A client sends the dirty call that is due, if one is.
    Due {
        /// The client.
        client: u8,
    },
    /// A call arrives at the server. It may have arrived before.
    Deliver {
        /// The call.
        call: u64,
    },
    /// A client gets the answer to its call, with the lease that was granted when the call last arrived. It is a BadStep where the call never arrived.
    Answer {
        /// The call.
        call: u64,
    },
    /// A client gives its call up.
    Fail {
        /// The call.
        call: u64,
    },
    /// The server notes that time has passed.
    Tick,
    /// A client asks for another duration from now on.
    Ask {
        /// The client.
        client: u8,
        /// The duration in milliseconds. It is a BadStep where it is above 2^40.
        asked: i64,
    },
}

//! The commands that words may ask for.
use crate::call_words::CallWords;
use crate::client::ClientCommand;
use crate::host_words::HostWords;
use crate::options::{LeaseOptions, ServeWords};

/// A command, with what the words say of it.
#[derive(Debug, Drop)]
pub enum Command {
    /// `answer [BINDING] [LEASE] [ACK]`: serve the input and the output as one connection, on these options.
    Answer(LeaseOptions),
    /// `serve PORT COUNT [BINDING] [LEASE] [ACK]`: serve this many links at this port, on these options.
    Serve(ServeWords),
    /// `host ADDRESS HOST PORT [BINDING] [LEASE] [ACK] [RECORD]`: serve links at this address and port until the input ends, on these options.
    Host(HostWords),
    /// `list`, `lookup`, `bind` or `unbind`: ask this of a server.
    Client(ClientCommand),
    /// `call HOST PORT NAME METHOD [ARG ..]`: call this method of an object, and print its result.
    Call(CallWords),
    /// `replay`: print the outline of the history that the input spells as a journal.
    Replay,
    /// `show`: print the text of the graph that the input spells as a stream.
    Show,
    /// `drill SEED N` or `journal SEED N`: print this text of the space that takes the events of a drill. The seed is below 2^63, and there
    /// are 1 to 1,000,000 rounds.
    Drill {
        text: DrillText,
        seed: u64,
        rounds: u64,
    },
    /// `world`: print the end of the world that the input's script makes.
    World,
    /// `suid`, `suidtext` or `describe`: print this of the class that the input outlines.
    Class(ClassOutput),
    /// `help [COMMAND]`: print what the commands are, or one of them.
    Help(HelpTopic),
}

/// Which text of a drill's space is printed.
#[derive(Clone, Copy, Debug, PartialEq, Eq)]
pub enum DrillText {
    /// `drill`: its summary.
    Summary,
    /// `journal`: its journal.
    Journal,
}

/// Which of a class's texts is printed.
#[derive(Clone, Copy, Debug, PartialEq, Eq)]
pub enum ClassOutput {
    /// `suid`: its serialVersionUID, as 16 hexadecimal digits and a line feed.
    Number,
    /// `suidtext`: the text of which that number is the hash, in hexadecimal digits, and a line feed.
    Text,
    /// `describe`: its description, as a stream.
    Description,
}

/// Which commands `help` explains.
#[derive(Clone, Copy, Debug, PartialEq, Eq)]
pub enum HelpTopic {
    /// All commands.
    All,
    Answer,
    Serve,
    Host,
    List,
    Lookup,
    Bind,
    Unbind,
    Call,
    Replay,
    Show,
    Drill,
    Journal,
    World,
    Suid,
    SuidText,
    Describe,
    Help,
}

/// Why words give no command.
#[derive(Clone, Copy, Debug, PartialEq, Eq)]
pub enum WordsFault {
    /// They are no command line.
    Usage,
    /// There was no memory to read them.
    OutOfMemory,
}

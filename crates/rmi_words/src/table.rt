//! The commands of the program: the one table that the words are read by and that `help` prints.
ghost use Rattle.std.specs.Prelude.{◌≡◌, map};
ghost use Rattle.rmi_words.specs.Entries.{entries, entry_of};
ghost use Rattle.rmi_words.specs.HelpText.{entries_of};

use crate::command::HelpTopic;

/// A word that a command takes after its name.
#[derive(Clone, Copy)]
pub struct WordEntry {
    /// The name that `help` gives the word.
    pub name: &'static str,
    /// True where the word has to be there. A word that may be left out stands after all that have to be there.
    pub required: bool,
    /// True where any number of words may stand there. Only the last word of a command is such.
    pub several: bool,
    /// The meaning of the word, with its range and its default.
    pub says: &'static str,
}

/// A command of the program.
#[derive(Clone, Copy)]
pub struct CommandEntry {
    /// The first word, which names it.
    pub name: &'static str,
    /// The words after it, in order.
    pub words: &'static [WordEntry],
    /// A text that says what the command does.
    pub does: &'static str,
    /// A line that calls it.
    pub example: &'static str,
}

/// The word that says whether clients may bind names.
const BINDING: WordEntry = WordEntry {
    name: "BINDING",
    required: false,
    several: false,
    says: "whether clients may bind names: open or closed (closed)",
};

/// The longest lease that is granted.
const LEASE: WordEntry = WordEntry {
    name: "LEASE",
    required: false,
    several: false,
    says: "the longest lease that is granted, in milliseconds: 1 to 1099511627776 (600000)",
};

/// The word for the time that a returned reference is awaited.
const ACK: WordEntry = WordEntry {
    name: "ACK",
    required: false,
    several: false,
    says: "how long a returned reference waits for its acknowledgement, in milliseconds: 1 to 1099511627776 (300000)",
};

/// The word that says what `host` prints.
const RECORD: WordEntry = WordEntry {
    name: "RECORD",
    required: false,
    several: false,
    says: "what is printed: silent, what is exported at the end, or journal, all events as they are made (silent)",
};

/// The seed of a drill.
const SEED: WordEntry = WordEntry {
    name: "SEED",
    required: true,
    several: false,
    says: "the seed of the drill: 0 to 9223372036854775807",
};

/// The word for the number of rounds of a drill.
const ROUNDS: WordEntry = WordEntry {
    name: "N",
    required: true,
    several: false,
    says: "how many rounds the drill has: 1 to 1000000",
};

/// The port that is listened on.
const PORT: WordEntry = WordEntry {
    name: "PORT",
    required: true,
    several: false,
    says: "the port to listen on: 1 to 65535",
};

/// The word for the number of connections that are served.
const COUNT: WordEntry = WordEntry {
    name: "COUNT",
    required: true,
    several: false,
    says: "how many connections to serve: 1 to 65535",
};

/// The address that is listened on.
const ADDRESS: WordEntry = WordEntry {
    name: "ADDRESS",
    required: true,
    several: false,
    says: "the address to listen on, 0.0.0.0 for all: at most 255 bytes",
};

/// The host that references name.
const OWN_HOST: WordEntry = WordEntry {
    name: "HOST",
    required: true,
    several: false,
    says: "the host that references name, by which clients reach this server: at most 255 bytes",
};

/// The host of a registry.
const HOST: WordEntry = WordEntry {
    name: "HOST",
    required: true,
    several: false,
    says: "the registry's host, a name or an address: at most 255 UTF-16 units",
};

/// The port of a registry.
const REGISTRY_PORT: WordEntry = WordEntry {
    name: "PORT",
    required: true,
    several: false,
    says: "the registry's port: 1 to 65535",
};

/// A name of a registry.
const NAME: WordEntry = WordEntry {
    name: "NAME",
    required: true,
    several: false,
    says: "a name of the registry: at most 255 UTF-16 units",
};

/// The name of which the reference is bound.
const FROM: WordEntry = WordEntry {
    name: "FROM",
    required: true,
    several: false,
    says: "the name whose reference is bound: at most 255 UTF-16 units",
};

/// The method that is called.
const METHOD: WordEntry = WordEntry {
    name: "METHOD",
    required: true,
    several: false,
    says: "the method's name, the types of its parameters and of its result: add(J)J",
};

/// The arguments of a call.
const ARG: WordEntry = WordEntry {
    name: "ARG",
    required: false,
    several: true,
    says: "an argument for each parameter: Z true or false, B S I J a number (~5 is minus 5), C a number (65 is A), L a string",
};

/// The command that is explained.
const COMMAND: WordEntry = WordEntry {
    name: "COMMAND",
    required: false,
    several: false,
    says: "the command to explain (all commands)",
};

/// All commands, in the order in which `help` prints them.
static COMMANDS: [CommandEntry; 17] = [
    CommandEntry {
        name: "answer",
        words: &[BINDING, LEASE, ACK],
        does: "serves the standard input and output as one connection",
        example: "rmi answer open 600000 300000",
    },
    CommandEntry {
        name: "serve",
        words: &[PORT, COUNT, BINDING, LEASE, ACK],
        does: "listens on 127.0.0.1:PORT, serves COUNT connections over one object table, and prints the outline of its history",
        example: "rmi serve 1099 10 open",
    },
    CommandEntry {
        name: "host",
        words: &[ADDRESS, OWN_HOST, PORT, BINDING, LEASE, ACK, RECORD],
        does: "listens on ADDRESS:PORT and serves connections over one object table until the standard input ends",
        example: "rmi host 0.0.0.0 localhost 1099 open",
    },
    CommandEntry {
        name: "list",
        words: &[HOST, REGISTRY_PORT],
        does: "prints the names of a registry, one a line",
        example: "rmi list localhost 1099",
    },
    CommandEntry {
        name: "lookup",
        words: &[HOST, REGISTRY_PORT, NAME],
        does: "prints the host, the port and the object that a name of a registry stands for",
        example: "rmi lookup localhost 1099 echo",
    },
    CommandEntry {
        name: "bind",
        words: &[HOST, REGISTRY_PORT, NAME, FROM],
        does: "binds a name of a registry to what another name stands for, as a java.rmi.Remote alone",
        example: "rmi bind localhost 1099 copy echo",
    },
    CommandEntry {
        name: "unbind",
        words: &[HOST, REGISTRY_PORT, NAME],
        does: "unbinds a name of a registry",
        example: "rmi unbind localhost 1099 copy",
    },
    CommandEntry {
        name: "call",
        words: &[HOST, REGISTRY_PORT, NAME, METHOD, ARG],
        does: "calls a method of the object that a name of a registry stands for, and prints its result",
        example: "rmi call localhost 1099 counter 'add(J)J' 5",
    },
    CommandEntry {
        name: "replay",
        words: &[],
        does: "prints the outline of the history that the journal on the standard input spells",
        example: "rmi replay < journal.txt",
    },
    CommandEntry {
        name: "show",
        words: &[],
        does: "prints the graph of the serialization stream on the standard input as text",
        example: "rmi show < stream.bin",
    },
    CommandEntry {
        name: "drill",
        words: &[SEED, ROUNDS],
        does: "makes generated events on a new object table, and prints the summary of its history",
        example: "rmi drill 1 1000",
    },
    CommandEntry {
        name: "journal",
        words: &[SEED, ROUNDS],
        does: "makes generated events on a new object table, and prints its journal",
        example: "rmi journal 1 1000 > journal.txt",
    },
    CommandEntry {
        name: "world",
        words: &[],
        does: "makes the steps of the script on the standard input between clients and one object table, and prints the end",
        example: "rmi world < script.txt",
    },
    CommandEntry {
        name: "suid",
        words: &[],
        does: "prints the serialVersionUID that Java computes for the class that the standard input outlines",
        example: "rmi suid < Point.outline",
    },
    CommandEntry {
        name: "suidtext",
        words: &[],
        does: "prints the bytes of which that serialVersionUID is the hash",
        example: "rmi suidtext < Point.outline",
    },
    CommandEntry {
        name: "describe",
        words: &[],
        does: "writes the description of the class that the standard input outlines, as a serialization stream",
        example: "rmi describe < Point.outline | rmi show",
    },
    CommandEntry {
        name: "help",
        words: &[COMMAND],
        does: "prints all commands, or one",
        example: "rmi help serve",
    },
];

/// Returns the commands that `help` explains for a topic, in the order in which it prints them.
pub fn commands_of(topic: HelpTopic) -> &'static [CommandEntry]
    ensures { map entry_of result.now ≡ entries_of topic }
{
    match topic {
        HelpTopic::All => COMMANDS.as_slice(),
        HelpTopic::Answer => &COMMANDS[0..1],
        HelpTopic::Serve => &COMMANDS[1..2],
        HelpTopic::Host => &COMMANDS[2..3],
        HelpTopic::List => &COMMANDS[3..4],
        HelpTopic::Lookup => &COMMANDS[4..5],
        HelpTopic::Bind => &COMMANDS[5..6],
        HelpTopic::Unbind => &COMMANDS[6..7],
        HelpTopic::Call => &COMMANDS[7..8],
        HelpTopic::Replay => &COMMANDS[8..9],
        HelpTopic::Show => &COMMANDS[9..10],
        HelpTopic::Drill => &COMMANDS[10..11],
        HelpTopic::Journal => &COMMANDS[11..12],
        HelpTopic::World => &COMMANDS[12..13],
        HelpTopic::Suid => &COMMANDS[13..14],
        HelpTopic::SuidText => &COMMANDS[14..15],
        HelpTopic::Describe => &COMMANDS[15..16],
        HelpTopic::Help => &COMMANDS[16..17],
    }
}

/// Returns all commands.
pub fn commands() -> &'static [CommandEntry]
    ensures { map entry_of result.now ≡ entries }
{
    COMMANDS.as_slice()
}

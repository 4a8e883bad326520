//! The commands that words ask for.
use crate::hosts::{must, words_of};
use history::Name;
use rmi_cli::{
    ClassOutput, ClientCommand, Command, HelpTopic, HostWords, LeaseOptions, Record, ServerAddress,
    WordsFault,
};
use sequence::Units;
use std::alloc::Global;
use std::process::Abort;

/// Words, and the command that they ask for: `answer`, `serve` or `host` with its words and numbers, a client's with its words, `help` with its topic, what is printed of a class, `other`, or `none`.
const ROWS: &str = "answer|answer false 600000 300000
answer open|answer true 600000 300000
answer closed|answer false 600000 300000
answer open 1|answer true 1 300000
answer closed 1099511627776|answer false 1099511627776 300000
answer open 5 1|answer true 5 1
answer open 5 1099511627776|answer true 5 1099511627776
answer open 0|none
answer open 1099511627777|none
answer open 5 0|none
answer open 5 1099511627777|none
answer open 18446744073709551617|none
answer open 05|none
answer open +5|none
answer open ~1|none
answer open 5 ~1|none
answer open -1|none
answer open 5 6 7|none
answer Open|none
answer opened|none
answer 5|none
answer open |none
answer -h|none
serve 1 1|serve 1 1 false 600000 300000
serve 65535 65535 open 7 8|serve 65535 65535 true 7 8
serve 1099 2 closed|serve 1099 2 false 600000 300000
serve 0 1|none
serve 1 0|none
serve 65536 1|none
serve 1 65536|none
serve 01 1|none
serve 1 ~1|none
serve 1|none
serve|none
host 0.0.0.0 localhost 1099|host 0.0.0.0 localhost 1099 false 600000 300000
host ::1 h 65535 open 7 8|host ::1 h 65535 true 7 8
host 127.0.0.1 h 1 closed|host 127.0.0.1 h 1 false 600000 300000
host 0.0.0.0 h|none
host 0.0.0.0|none
host|none
host 0.0.0.0 h 0|none
host 0.0.0.0 h 65536|none
host 0.0.0.0 h 01|none
host 0.0.0.0 h 1 open 0|none
host 0.0.0.0 h 1 silent|none
host 0.0.0.0 h 1 open 7 8 silent|host 0.0.0.0 h 1 true 7 8
host 0.0.0.0 h 1 closed 7 8 journal|journal of host 0.0.0.0 h 1 false 7 8
host 0.0.0.0 h 1 open 7 8 Journal|none
host 0.0.0.0 h 1 open 7 8 loud|none
host 0.0.0.0 h 1 open 7 8 journal silent|none
host 0.0.0.0 h 1 journal|none
host -1 h 1|none
host 0.0.0.0 -h 1|none
Host 0.0.0.0 h 1|none
list 127.0.0.1 1099|list 127.0.0.1 1099
list localhost 65535|list localhost 65535
list 127.0.0.1|none
list|none
list 127.0.0.1 0|none
list 127.0.0.1 65536|none
list 127.0.0.1 01099|none
list 127.0.0.1 1099 echo|none
list -h 1099|none
lookup h 1 echo|lookup h 1 echo
lookup h 1 ~a|lookup h 1 ~a
lookup h 1 -a|none
lookup h 1|none
lookup h 1 a b|none
bind h 1 copy echo|bind h 1 copy echo
bind h 1 copy|none
bind h 1 copy echo more|none
unbind h 1 copy|unbind h 1 copy
unbind h 1|none
unbind h x copy|none
call h 1 n m()V|other
call h 1 n m()V 1|none
call h 1 n|none
call|none
call h 1 n m(J)V|none
call h 1 n m(J)V 1 2|none
call h 0 n m()V|none
call h 1 n m(B)V ~128|other
call h 1 n m(B)V 127|other
call h 1 n m(B)V ~129|none
call h 1 n m(B)V 128|none
call h 1 n m(S)V ~32768|other
call h 1 n m(S)V 32767|other
call h 1 n m(S)V ~32769|none
call h 1 n m(S)V 32768|none
call h 1 n m(I)V ~2147483648|other
call h 1 n m(I)V 2147483647|other
call h 1 n m(I)V ~2147483649|none
call h 1 n m(I)V 2147483648|none
call h 1 n m(J)V ~9223372036854775808|other
call h 1 n m(J)V 9223372036854775807|other
call h 1 n m(J)V ~9223372036854775809|none
call h 1 n m(J)V 9223372036854775808|none
call h 1 n m(C)V 0|other
call h 1 n m(C)V 65535|other
call h 1 n m(C)V 65536|none
call h 1 n m(C)V ~1|none
call h 1 n m(Z)V true|other
call h 1 n m(Z)V false|other
call h 1 n m(Z)V True|none
call h 1 n m(Z)V 1|none
call h 1 n m(Ljava/lang/String;)V 1|other
call h 1 n m(Ljava/lang/String;I)Ljava/lang/String; ~ ~1|other
call h 1 n m(Ljava/lang/String;)V |other
call h 1 n m(Ljava/lang/String;)V -1|none
call h 1 n m(F)V 1|none
call h 1 n m(D)V 1|none
call h 1 n m([I)V 1|none
call h 1 n m()F|none
call h 1 n m()D|none
call h 1 n m()[J|other
call h 1 n m()J|other
call h 1 n m(J)V 01|none
call h 1 n m(J)V ~0|none
call h 1 n m(J)V +1|none
call h 1 n m|none
call h 1 n ()V|none
Call h 1 n m()V|none
List h 1|none
serve 1 1 open 7 8 9|none
serve 1 1 7|none
replay|other
show|other
world|other
world 1|none
worlds|none
drill 0 1|other
drill 9223372036854775807 1000000|other
drill 9223372036854775808 1|none
drill 0 1000001|none
drill 0 0|none
drill 00 1|none
drill 0|none
drill 0 1 1|none
drill|none
journal 1 1|other
journal 1 0|none
journal 1|none
journal 1 1 1|none
replay open|none
replay replay|none
suid|suid
suidtext|suidtext
describe|describe
suid 1|none
suidtext suidtext|none
describe A|none
describe -|none
Suid|none
suidtex|none
show show|none
help|help all
help answer|help answer
help serve|help serve
help host|help host
help list|help list
help lookup|help lookup
help bind|help bind
help unbind|help unbind
help call|help call
help replay|help replay
help show|help show
help drill|help drill
help journal|help journal
help world|help world
help suid|help suid
help suidtext|help suidtext
help describe|help describe
help help|help help
help help help|none
help other|none
help Help|none
help |none
help -h|none
-h|none
-|none
--|none
--help|none
--version|none
-- replay|none
replay --|none
replay -|none
serve 1 1 -o|none
serve -1 1|none
drill -1 1|none
replay -h|none
answer -- open|none
Replay|none
replays|none
repla|none
other|none
|none";

/// Checks that these terms are written so.
fn are_terms(rt: &impl Abort, alloc: Global, front: &str, terms: &LeaseOptions, wanted: &str) {
    let binding = terms.binding;
    let lease_ms = terms.lease_ms;
    let ack_ms = terms.ack_ms;
    match format!(in alloc; "{front} {binding} {lease_ms} {ack_ms}") {
        Ok(text) => must(rt, text.as_str() == wanted, wanted),
        Err(_) => must(rt, false, "memory"),
    }
}

/// The word for what `help` explains.
fn topic_name(topic: HelpTopic) -> &'static str {
    match topic {
        HelpTopic::All => "help all",
        HelpTopic::Answer => "help answer",
        HelpTopic::Serve => "help serve",
        HelpTopic::Host => "help host",
        HelpTopic::List => "help list",
        HelpTopic::Lookup => "help lookup",
        HelpTopic::Bind => "help bind",
        HelpTopic::Unbind => "help unbind",
        HelpTopic::Call => "help call",
        HelpTopic::Replay => "help replay",
        HelpTopic::Show => "help show",
        HelpTopic::Drill => "help drill",
        HelpTopic::Journal => "help journal",
        HelpTopic::World => "help world",
        HelpTopic::Suid => "help suid",
        HelpTopic::SuidText => "help suidtext",
        HelpTopic::Describe => "help describe",
        HelpTopic::Help => "help help",
    }
}

/// The word for what is printed of a class.
fn output_name(output: ClassOutput) -> &'static str {
    match output {
        ClassOutput::Number => "suid",
        ClassOutput::Text => "suidtext",
        ClassOutput::Description => "describe",
    }
}

/// A text of 16-bit units.
fn text_of(rt: &impl Abort, alloc: Global, units: &Units) -> String {
    String::from_utf16_lossy(alloc, units.as_slice()).expect(rt, "memory")
}

/// Looks whether a command of a client is written so, with the word that names it and the words for names.
fn are_client_words(
    rt: &impl Abort,
    alloc: Global,
    word: &str,
    server: &ServerAddress,
    names: &[&Name],
    wanted: &str,
) {
    let host = text_of(rt, alloc, &server.host);
    let port = server.port;
    let mut text = format!(in alloc; "{word} {host} {port}").expect(rt, "memory");
    for name in names {
        let name = text_of(rt, alloc, name.units());
        must(rt, text.push_str(" ").is_ok(), "memory");
        must(rt, text.push_str(name.as_str()).is_ok(), "memory");
    }
    must(rt, text.as_str() == wanted, wanted);
}

/// Looks whether a command of a client is written so.
fn is_client(rt: &impl Abort, alloc: Global, command: &ClientCommand, wanted: &str) {
    match command {
        ClientCommand::List { server } => {
            are_client_words(rt, alloc, "list", server, &[], wanted);
        }
        ClientCommand::Lookup { server, name } => {
            are_client_words(rt, alloc, "lookup", server, &[name], wanted);
        }
        ClientCommand::Bind { server, name, from } => {
            are_client_words(rt, alloc, "bind", server, &[name, from], wanted);
        }
        ClientCommand::Unbind { server, name } => {
            are_client_words(rt, alloc, "unbind", server, &[name], wanted);
        }
    }
}

/// Looks whether what `host` is told is written so.
fn is_host(rt: &impl Abort, alloc: Global, asked: &HostWords, wanted: &str) {
    let address = asked.address.as_str();
    let host = text_of(rt, alloc, &asked.host);
    let port = asked.port;
    let word = match asked.output {
        Record::Silent => "host",
        Record::Journal => "journal of host",
    };
    match format!(in alloc; "{word} {address} {host} {port}") {
        Ok(front) => are_terms(rt, alloc, front.as_str(), &asked.options, wanted),
        Err(_) => must(rt, false, "memory"),
    }
}

/// Looks at what the words of a line ask for.
fn check(rt: &impl Abort, alloc: Global, line: &str, wanted: &str) {
    match words_of(rt, alloc, line).command(alloc) {
        Ok(Command::Answer(terms)) => are_terms(rt, alloc, "answer", &terms, wanted),
        Ok(Command::Serve(serve)) => {
            let port = serve.port;
            let count = serve.count;
            match format!(in alloc; "serve {port} {count}") {
                Ok(front) => are_terms(rt, alloc, front.as_str(), &serve.options, wanted),
                Err(_) => must(rt, false, "memory"),
            }
        }
        Ok(Command::Host(host)) => is_host(rt, alloc, &host, wanted),
        Ok(Command::Client(command)) => is_client(rt, alloc, &command, wanted),
        Ok(Command::Class(output)) => must(rt, wanted == output_name(output), line),
        Ok(Command::Help(topic)) => must(rt, wanted == topic_name(topic), line),
        Ok(_) => must(rt, wanted == "other", line),
        Err(WordsFault::Usage) => must(rt, wanted == "none", line),
        Err(WordsFault::OutOfMemory) => must(rt, false, "memory"),
    }
}

#[test]
fn words_ask_for_their_command(rt: HostRuntime) {
    for row in ROWS.split('\n') {
        match row.split_once('|') {
            Some((line, wanted)) => check(&rt, rt.alloc(), line, wanted),
            None => must(&rt, false, row),
        }
    }
}

/// Looks whether the words of `host` are a command line where the word at one place is this one so many times.
fn check_long(rt: &impl Abort, alloc: Global, place: usize, piece: &str, count: u32, is_one: bool) {
    let mut long = String::new(alloc);
    for _ in 0..count {
        must(rt, long.push_str(piece).is_ok(), "memory");
    }
    let long = long.as_str();
    let line = if place == 1 {
        format!(in alloc; "host {long} h 1").expect(rt, "memory")
    } else {
        format!(in alloc; "host h {long} 1").expect(rt, "memory")
    };
    let asks = words_of(rt, alloc, line.as_str()).command(alloc).is_ok();
    must(rt, asks == is_one, line.as_str());
}

#[test]
fn an_address_and_a_host_have_a_longest_length(rt: HostRuntime) {
    check_long(&rt, rt.alloc(), 1, "a", 255, true);
    check_long(&rt, rt.alloc(), 1, "a", 256, false);
    check_long(&rt, rt.alloc(), 2, "a", 255, true);
    check_long(&rt, rt.alloc(), 2, "a", 256, false);
    check_long(&rt, rt.alloc(), 2, "\u{fc}", 127, true);
    check_long(&rt, rt.alloc(), 2, "\u{fc}", 128, false);
    check_long(&rt, rt.alloc(), 2, "\u{1f600}", 42, true);
    check_long(&rt, rt.alloc(), 2, "\u{1f600}", 43, false);
}

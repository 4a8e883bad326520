//! The most bytes of a journal and of a script.
ghost use Rattle.std.specs.Prelude.{true};
ghost use Rattle.wire_io.specs.Wire.{untold_read};

use crate::hosts::{Runs, host_over, is_line, must, sink_of, words_of};
use crate::texts::{cut, number_of};
use rmi_cli::run;
use std::alloc::Global;
use wire_io::source::{Failed, Source};

/// A source that gives so many bytes, and leaves open which.
#[derive(Drop)]
struct Untold {
    left: usize,
}

impl Source for Untold {
    ghost half = { λ _. untold_read 0 true };

    fn read(&mut self, buf: &mut [u8]) -> Result<usize, Failed> {
        let count = self.left.min(buf.len());
        self.left -= count;
        Ok(count)
    }

    fn shut(&mut self) {}
}

/// The command, how many bytes there are, and the status and the line. The bytes are no journal and no script, which is seen where all of them are taken.
const LENGTHS: &str = "replay | 268435456 | 2 bad line 1
replay | 268435457 | 6 too large bytes at 268435456
world | 268435456 | 2 bad line 1
world | 268435457 | 6 too large bytes at 268435456";

/// Runs a command over so many bytes.
fn check_length(rt: &impl Runs, alloc: Global, line: &str) {
    let (command, told) = cut(line, '|');
    let (length, told) = cut(told, '|');
    let (status, told) = cut(told, ' ');
    let words = words_of(rt, alloc, command);
    let input = Untold {
        left: number_of(rt, length) as usize,
    };
    let mut host = host_over(rt, alloc, input, sink_of(rt, alloc, ""), "");
    let ended = run(rt, alloc, &words, &mut host);
    must(rt, u32::from(ended) == number_of(rt, status), line);
    must(rt, is_line(host.errors.bytes(), told), line);
    must(rt, host.output.writes() == 0, line);
}

#[test]
fn journals_and_scripts_have_a_longest_length(rt: HostRuntime) {
    for line in LENGTHS.split('\n') {
        check_length(&rt, rt.alloc(), line);
    }
}

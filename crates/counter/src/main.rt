//! A count as a program: the words `count --lots LIST`, a ballot file on standard input, its sheet on standard output. It
//! is on fewer crates than the program of days, so the first count in a checkout builds this one.
#![tactic(auto)]

use ballot_count::run_count;
use byte_edge::{FreeGate, StdSink, StdSource};
use std::io::{self, BufWriter};
use std::process::ExitCode;
use tool_edge::{End, NO_WORDS, words_of};

/// How many bytes of a sheet are handed to the system at once.
const ROOM: usize = 1 << 18;

fn main(rt: HostRuntime) -> ExitCode {
    let Ok(words) = words_of(&rt) else {
        return ExitCode::from(NO_WORDS);
    };
    let Ok(writer) = BufWriter::with_capacity(rt.alloc(), ROOM, io::writer(&rt)) else {
        let end: End = End::NoMemory;
        return end.exit_code();
    };
    let mut source = StdSource::new(rt.reader());
    let mut sink = StdSink::new(writer);
    let end = run_count(
        &rt,
        rt.alloc(),
        words.as_slice(),
        &mut source,
        &mut sink,
        &FreeGate,
    );
    end.exit_code()
}

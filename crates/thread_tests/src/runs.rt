// Whole runs of meek over an input in memory.
use byte_edge::{CalmSource, Gate, Sink};
use meek_cli::{Outcome, meek};
use std::alloc::Global;
use std::sync::Wait;
use std::test::Fail;
use std::thread::Threads;

/// The words of a line.
fn words_of(alloc: Global, line: &str) -> Result<Vec<String>, Fail> {
    let mut words = Vec::new(alloc);
    for word in line.split_whitespace() {
        words.push(word.to_string(alloc)?)?;
    }
    Ok(words)
}

/// Does what the words ask for over this input, and writes into the sink.
pub(crate) fn run_into<R: Threads + Wait + Sync, K: Sink, G: Gate + Sync>(
    rt: &R,
    alloc: Global,
    (words, input): (&str, &[u8]),
    sink: &mut K,
    gate: &G,
) -> Result<Outcome, Fail> {
    let words = words_of(alloc, words)?;
    let mut source = CalmSource::new(input.to_vec(alloc)?);
    Ok(meek(rt, alloc, words.as_slice(), &mut source, sink, gate))
}

// The sink is flushed after the last byte, at each end of a run that writes all it owes.
use crate::runs::run_into;
use crate::same::same;
use byte_edge::{FreeGate, StdSink};
use std::alloc::Global;
use std::io::{self, BufWriter, Write};
use std::process::Abort;
use std::sync::Wait;
use std::test::Fail;
use std::thread::Threads;

/// Takes all bytes, and keeps whether it was flushed after the last of them.
#[derive(Drop)]
struct Noted {
    bytes: Vec<u8>,
    flushed: bool,
}

impl Write for Noted {
    fn write(&mut self, piece: &[u8]) -> io::Result<usize> {
        self.flushed = false;
        self.bytes.write(piece)
    }

    fn flush(&mut self) -> io::Result<()> {
        self.flushed = true;
        Ok(())
    }
}

const FILE: &[u8] = b"1 1 0 \"A\" \"T\"\n";

const SHEET: &[u8] = b"title T\nseats 1\ncandidates 1\nballots 0\nresult\n1 elected A\nend\n";

// A day without teams.
const EMPTY_DAY: &[u8] = b"2 1\n0\n\"A\" \"B\" \"T\"\nlots 2 1 0\nend\n";

const EMPTY_DAY_TEXT: &[u8] = b"1 clerk freeze frozen\nsheet 1\n\
title T\nseats 1\ncandidates 2\nballots 0\n\
round 1 iteration 1\n1 hopeful 1.000000000 0.000000000\n2 hopeful 1.000000000 0.000000000\n\
total 0.000000000\nquota 0.000000001\nsurplus 0.000000000\nstep defeat 2 tied 1 2\n\
result\n1 elected A\n2 defeated B\nend\n";

const SUMMARY: &[u8] =
    b"trial 1\ncalls 6\nbatches 4\nballots 760\nrounds 10\niterations 20\nelected 2 4 10 12\n";

// The words, the input, and what is written: a sheet, refused lots, a refused file, refused words, a day,
// a refused day, and a trial.
const ENDS: [(&str, &[u8], &[u8]); 7] = [
    ("count --lots 1", FILE, SHEET),
    ("count --lots 2", FILE, b"refused BadLots at 1\n"),
    ("count --lots 1", b"0 1\n", b"refused BadHeader at 0\n"),
    ("count", FILE, b"refused BadWords\n"),
    ("day", EMPTY_DAY, EMPTY_DAY_TEXT),
    ("day", b"", b"refused Ended at 0\n"),
    ("trial 1", b"", SUMMARY),
];

/// A run through a buffer of std before this writer. What the buffer holds back is handed on by the flush, which is handed on too.
fn run_before<R: Threads + Wait + Sync>(
    rt: &R,
    alloc: Global,
    run: (&str, &[u8]),
    writer: &mut Noted,
) -> Result<(), Fail> {
    let mut sink = StdSink::new(BufWriter::new(alloc, writer)?);
    run_into(rt, alloc, run, &mut sink, &FreeGate)?;
    Ok(())
}

/// A run writes this, and flushes after it.
fn flushes<R: Threads + Wait + Abort + Sync>(
    rt: &R,
    alloc: Global,
    (words, input): (&str, &[u8]),
    written: &[u8],
) -> Result<(), Fail> {
    let mut writer = Noted {
        bytes: Vec::new(alloc),
        flushed: false,
    };
    run_before(rt, alloc, (words, input), &mut writer)?;
    let found = (words, writer.flushed, writer.bytes.as_slice());
    same(rt, found, (words, true, written));
    Ok(())
}

#[test]
fn flushes_a_buffer_of_std(rt: HostRuntime) -> Result<(), Fail> {
    for (words, input, written) in ENDS.iter() {
        flushes(&rt, rt.alloc(), (*words, *input), *written)?;
    }
    Ok(())
}

//! The program: every command, by the first word. For a command it makes the one call whose contract says what is written;
//! `counter` is the smaller program that makes only that of a count.
//!
//! A word that names a file gives the input in place of the standard input; `check`, `audit` and `ballots` take two files,
//! a sheet or a text and the file by which it is judged.
#![tactic(auto)]

use ballot_look::look;
use blt_import::import;
use blt_normal::normal;
use byte_edge::{FreeGate, Sink, Source, StdSink, StdSource};
use count_promise::promise;
use day_audit::{audit, audit_two};
use day_ballots::{ballots, ballots_two};
use day_page::page;
use file_edge::{Given, open, part};
use lot_draw::draw_in_public;
use meek_cli::meek;
use sheet_check::{check, check_two};
use std::alloc::Global;
use std::io::{self, BufWriter, Eprint, Input};
use std::process::ExitCode;
use std::rt::Files;
use std::sync::Wait;
use std::thread::Threads;
use tally_cli::tally;
use tool_edge::{End, NO_WORDS, words_of};
use warren_cli::warren;

/// How many bytes are handed to the system at once.
const ROOM: usize = 1 << 18;

fn main(rt: HostRuntime) -> ExitCode {
    let Ok(words) = words_of(&rt) else {
        return ExitCode::from(NO_WORDS);
    };
    let Ok(writer) = BufWriter::with_capacity(rt.alloc(), ROOM, io::writer(&rt)) else {
        return no_memory();
    };
    let mut sink = StdSink::new(writer);
    if most_files(words.as_slice()) == 0 {
        return run_on_input(&rt, rt.alloc(), words.as_slice(), &mut sink);
    }
    match part(rt.alloc(), words.as_slice()) {
        Ok(given) => run_given(&rt, rt.alloc(), words.as_slice(), &given, &mut sink),
        Err(_) => no_memory(),
    }
}

/// The end of a program that has no memory for its words or its output.
fn no_memory() -> ExitCode {
    let end: End = End::NoMemory;
    end.exit_code()
}

/// How many files the command of the first word takes.
fn most_files(words: &[String]) -> usize {
    let Some(name) = words.first() else {
        return 0;
    };
    match name.as_str() {
        "check" | "audit" | "ballots" => 2,
        "count" | "day" | "warren" | "look" | "normal" | "import" | "tally" | "page" | "promise" =>
            1,
        _ => 0,
    }
}

/// Runs a command on the files of its words. One that is given more than it takes refuses its words, whatever they are.
fn run_given<R: Threads + Wait + Sync + Files + Input + Eprint, K: Sink>(
    rt: &R,
    alloc: Global,
    words: &[String],
    given: &Given,
    sink: &mut K,
) -> ExitCode {
    match given.files.as_slice() {
        [one] => run_on_file(rt, alloc, given.words.as_slice(), one.as_str(), sink),
        [text, file] if most_files(words) == 2 => {
            let names = (text.as_str(), file.as_str());
            run_on_two(rt, alloc, given.words.as_slice(), names, sink)
        }
        _ => run_on_input(rt, alloc, words, sink),
    }
}

/// Runs a command on the standard input.
fn run_on_input<R: Threads + Wait + Sync + Input, K: Sink>(
    rt: &R,
    alloc: Global,
    words: &[String],
    sink: &mut K,
) -> ExitCode {
    let mut source = StdSource::new(rt.reader());
    run(rt, alloc, words, &mut source, sink)
}

/// Runs a command on a file.
fn run_on_file<R: Threads + Wait + Sync + Files + Input + Eprint, K: Sink>(
    rt: &R,
    alloc: Global,
    words: &[String],
    name: &str,
    sink: &mut K,
) -> ExitCode {
    match open(rt, name) {
        Ok(mut source) => run(rt, alloc, words, &mut source, sink),
        Err(why) => not_opened(rt, name, &why),
    }
}

/// Runs a command on a text and the file by which it is judged.
fn run_on_two<R: Threads + Wait + Sync + Files + Input + Eprint, K: Sink>(
    rt: &R,
    alloc: Global,
    words: &[String],
    (text, file): (&str, &str),
    sink: &mut K,
) -> ExitCode {
    let mut of_text = match open(rt, text) {
        Ok(source) => source,
        Err(why) => return not_opened(rt, text, &why),
    };
    match open(rt, file) {
        Ok(mut of_file) => run_two(rt, alloc, words, &mut of_text, &mut of_file, sink),
        Err(why) => not_opened(rt, file, &why),
    }
}

/// Says why a file can't be opened. The program ends as where reading failed.
fn not_opened<R: Eprint>(rt: &R, name: &str, why: &io::Error) -> ExitCode {
    let _ = eprintln!(rt; "meek: {name:?} can't be opened: {why}");
    let end: End = End::SourceFault;
    end.exit_code()
}

/// Does what the words ask for over two inputs. A tool takes the words after its name.
fn run_two<R: Threads + Wait + Sync, T: Source, S: Source, K: Sink>(
    rt: &R,
    alloc: Global,
    words: &[String],
    of_text: &mut T,
    of_file: &mut S,
    sink: &mut K,
) -> ExitCode {
    let Some((name, rest)) = words.split_first() else {
        return run_meek(rt, alloc, words, of_file, sink);
    };
    match name.as_str() {
        "check" => check_two(rt, alloc, rest, of_text, of_file, sink).exit_code(),
        "audit" => audit_two(rt, alloc, rest, of_text, of_file, sink).exit_code(),
        "ballots" => ballots_two(rt, alloc, rest, of_text, of_file, sink).exit_code(),
        _ => run_meek(rt, alloc, words, of_file, sink),
    }
}

/// Does what the words ask for. A tool takes the words after its name.
fn run<R: Threads + Wait + Sync, S: Source, K: Sink>(
    rt: &R,
    alloc: Global,
    words: &[String],
    source: &mut S,
    sink: &mut K,
) -> ExitCode {
    let Some((name, rest)) = words.split_first() else {
        return run_meek(rt, alloc, words, source, sink);
    };
    match name.as_str() {
        "draw" => draw_in_public(alloc, rest, sink).exit_code(),
        "normal" => normal(rt, alloc, rest, source, sink).exit_code(),
        "look" => look(alloc, rest, source, sink).exit_code(),
        "import" => import(rt, alloc, rest, source, sink).exit_code(),
        "warren" => warren(alloc, rest, source, sink).exit_code(),
        "check" => check(rt, alloc, rest, source, sink).exit_code(),
        "audit" => audit(rt, alloc, rest, source, sink).exit_code(),
        "ballots" => ballots(rt, alloc, rest, source, sink).exit_code(),
        "page" => page(alloc, rest, source, sink).exit_code(),
        "promise" => promise(alloc, rest, source, sink).exit_code(),
        "tally" => tally(rt, alloc, rest, source, sink).exit_code(),
        _ => run_meek(rt, alloc, words, source, sink),
    }
}

/// A count, a day or a trial, or words that ask for nothing.
fn run_meek<R: Threads + Wait + Sync, S: Source, K: Sink>(
    rt: &R,
    alloc: Global,
    words: &[String],
    source: &mut S,
    sink: &mut K,
) -> ExitCode {
    let outcome = meek(rt, alloc, words, source, sink, &FreeGate);
    outcome.status.exit_code()
}

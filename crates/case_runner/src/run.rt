// A case's run.
use crate::case::Case;
use crate::telling::Ran;
use crate::tool::Tool;
use ballot_look::look;
use blt_import::import;
use blt_normal::normal;
use byte_edge::{FreeGate, MemorySink, MemorySource, NoMemory};
use count_promise::promise;
use day_audit::{audit, audit_two};
use day_ballots::{ballots, ballots_two};
use day_page::page;
use lot_draw::draw_in_public;
use meek_cli::meek;
use sheet_check::{check, check_two};
use std::alloc::Global;
use std::process::ExitCode;
use std::sync::Wait;
use std::thread::Threads;
use tally_cli::tally;
use warren_cli::warren;

/// Calls `meek`, and gives its exit status and how many calls its history has.
fn call_meek<R: Threads + Wait + Sync>(
    rt: &R,
    alloc: Global,
    words: &[String],
    source: &mut MemorySource,
    sink: &mut MemorySink,
) -> (ExitCode, usize) {
    let outcome = meek(rt, alloc, words, source, sink, &FreeGate);
    let calls = outcome.history.entries().len();
    (outcome.status.exit_code(), calls)
}

/// Calls a tool, and gives its exit status and how many calls its history has.
fn call<R: Threads + Wait + Sync>(
    rt: &R,
    alloc: Global,
    tool: Tool,
    words: &[String],
    source: &mut MemorySource,
    sink: &mut MemorySink,
) -> (ExitCode, usize) {
    let code = match tool {
        Tool::Draw => draw_in_public(alloc, words, sink).exit_code(),
        Tool::Normal => normal(rt, alloc, words, source, sink).exit_code(),
        Tool::Look => look(alloc, words, source, sink).exit_code(),
        Tool::Import => import(rt, alloc, words, source, sink).exit_code(),
        Tool::Warren => warren(alloc, words, source, sink).exit_code(),
        Tool::Check => check(rt, alloc, words, source, sink).exit_code(),
        Tool::Audit => audit(rt, alloc, words, source, sink).exit_code(),
        Tool::Ballots => ballots(rt, alloc, words, source, sink).exit_code(),
        Tool::Page => page(alloc, words, source, sink).exit_code(),
        Tool::Promise => promise(alloc, words, source, sink).exit_code(),
        Tool::Tally => tally(rt, alloc, words, source, sink).exit_code(),
        Tool::Meek => return call_meek(rt, alloc, words, source, sink),
    };
    (code, 0)
}

/// Calls a tool over two inputs, and gives its exit status.
fn call_two<R: Threads + Sync>(
    rt: &R,
    alloc: Global,
    case: &Case<'_>,
    of_text: &mut MemorySource,
    of_file: &mut MemorySource,
    sink: &mut MemorySink,
) -> ExitCode {
    let words = case.words.as_slice();
    match case.tool {
        Tool::Audit => audit_two(rt, alloc, words, of_text, of_file, sink).exit_code(),
        Tool::Ballots => ballots_two(rt, alloc, words, of_text, of_file, sink).exit_code(),
        _ => check_two(rt, alloc, words, of_text, of_file, sink).exit_code(),
    }
}

/// What a case's run reads.
fn source_of(alloc: Global, case: &Case<'_>) -> Result<MemorySource, NoMemory> {
    let input = case.input.to_vec(alloc)?;
    let failing = case.failing_reads.to_vec(alloc)?;
    Ok(MemorySource::new(input, case.read.max(1), failing))
}

/// What a case's run reads as its second input.
fn file_of(alloc: Global, case: &Case<'_>, file: &[u8]) -> Result<MemorySource, NoMemory> {
    let input = file.to_vec(alloc)?;
    let failing = case.failing_file_reads.to_vec(alloc)?;
    Ok(MemorySource::new(input, case.read.max(1), failing))
}

/// What a case's run writes into.
fn sink_of(alloc: Global, case: &Case<'_>) -> Result<MemorySink, NoMemory> {
    let failing = case.failing_writes.to_vec(alloc)?;
    MemorySink::with_room(alloc, case.room, case.write.max(1), failing)
}

/// Runs a case's tool.
pub(crate) fn run<R: Threads + Wait + Sync>(
    rt: &R,
    alloc: Global,
    case: &Case<'_>,
) -> Result<Ran, NoMemory> {
    let mut source = source_of(alloc, case)?;
    let mut sink = sink_of(alloc, case)?;
    if let Some(file) = &case.file {
        let mut of_file = file_of(alloc, case, file.as_slice())?;
        let code = call_two(rt, alloc, case, &mut source, &mut of_file, &mut sink);
        return Ok(Ran {
            code,
            sink,
            calls: 0,
        });
    }
    let words = case.words.as_slice();
    let (code, calls) = call(rt, alloc, case.tool, words, &mut source, &mut sink);
    Ok(Ran { code, sink, calls })
}

//! Runs the cases in the files of its folder whose names end in `.cases`: says which of them differ, and how many
//! there are.
//!
//! `folder` reads each file with a `CaseReader`, `run` makes the call of each `Case` over memory, and `telling` says how
//! what it came to, a `Ran`, differs. A case keeps its bytes as lines of text until it is read, so that a file of many takes
//! little memory. Contracts say what the comparison does, and what the words and the mark of a line are: a reader that is
//! wrong elsewhere shows as a case that differs, or as another number of cases.
#![tactic(auto)]

mod bytes;
mod case;
mod folder;
mod line;
mod line_fault;
mod reader;
mod run;
mod telling;
mod text;
mod tool;

use crate::folder::{push_names, run_files};
use std::process::ExitCode;

fn main(rt: HostRuntime) -> ExitCode {
    let mut names = Vec::new(rt.alloc());
    if push_names(&rt, &mut names).is_err() {
        return ExitCode::FAILURE;
    }
    names.sort_unstable();
    match run_files(&rt, names.as_slice()) {
        Ok(true) => ExitCode::SUCCESS,
        Ok(false) | Err(_) => ExitCode::FAILURE,
    }
}

// The files of cases in the folder.
use crate::case::Case;
use crate::line::begins_part;
use crate::line_fault::LineFault;
use crate::reader::CaseReader;
use crate::run::run;
use crate::telling::{is_well, tell, tell_no_memory};
use std::alloc::Global;
use std::rt::Files;
use std::sync::Wait;
use std::thread::Threads;
use std::{fs, io};

/// Adds a name if it is that of a file of cases.
fn push_name(alloc: Global, names: &mut Vec<String>, name: &str) -> io::Result<()> {
    if name.ends_with(".cases") {
        names.push(name.to_string(alloc)?)?;
    }
    Ok(())
}

/// Adds the names of the files of cases.
pub(crate) fn push_names(rt: &HostRuntime, names: &mut Vec<String>) -> io::Result<()> {
    for entry in fs::read_dir(rt, ".")? {
        push_name(rt.alloc(), names, entry?.file_name())?;
    }
    Ok(())
}

/// How many cases were run, and how many of them differ or could not be read.
#[derive(Clone, Copy)]
struct Tally {
    cases: usize,
    differ: usize,
}

impl Tally {
    /// Counts a case, or a file that could not be read, that differs.
    fn count_different(&mut self) {
        self.differ = self.differ.saturating_add(1);
    }
}

/// Runs a case.
fn run_case<R: Print + AllocGlobal + Threads + Wait + Sync>(
    rt: &R,
    file: &str,
    case: &Case<'_>,
    tally: &mut Tally,
) -> io::Result<()> {
    tally.cases = tally.cases.saturating_add(1);
    match &run(rt, rt.alloc(), case) {
        Ok(ran) if is_well(case, ran) => Ok(()),
        Ok(ran) => {
            tally.count_different();
            tell(rt, file, case, ran)
        }
        Err(_) => {
            tally.count_different();
            tell_no_memory(rt, file, case)
        }
    }
}
/// Says that a line of a file can't be read, which counts as a case that differs.
fn tell_fault(
    rt: &impl Print,
    file: &str,
    line: usize,
    fault: LineFault,
    tally: &mut Tally,
) -> io::Result<()> {
    tally.count_different();
    println!(rt; "{file} line {line}: {fault:?}")
}

/// Runs the case that ends here, if one does; gives whether the file goes on.
fn end_part<R: Print + AllocGlobal + Threads + Wait + Sync>(
    rt: &R,
    file: &str,
    reader: &mut CaseReader<'_>,
    tally: &mut Tally,
) -> io::Result<bool> {
    match reader.end_part(rt.alloc()) {
        Ok(true) => run_case(rt, file, &reader.case, tally)?,
        Ok(false) => {}
        Err(fault) => {
            tell_fault(rt, file, reader.line, fault, tally)?;
            return Ok(false);
        }
    }
    Ok(true)
}

/// Runs the cases of a file up to a line that can't be read.
fn run_lines<'a, R: Print + AllocGlobal + Threads + Wait + Sync>(
    rt: &R,
    file: &str,
    reader: &mut CaseReader<'a>,
    text: &'a str,
    tally: &mut Tally,
) -> io::Result<()> {
    for line in text.split('\n') {
        if begins_part(line) && !end_part(rt, file, reader, tally)? {
            return Ok(());
        }
        if let Err(fault) = reader.take(rt.alloc(), line) {
            return tell_fault(rt, file, reader.line, fault, tally);
        }
    }
    end_part(rt, file, reader, tally)?;
    Ok(())
}

/// Runs the cases of a file, which has to have one or a line that can't be read.
fn run_cases<R: Print + AllocGlobal + Threads + Wait + Sync>(
    rt: &R,
    file: &str,
    text: &str,
    tally: &mut Tally,
) -> io::Result<()> {
    let before = (tally.cases, tally.differ);
    run_lines(rt, file, &mut CaseReader::new(rt.alloc()), text, tally)?;
    if (tally.cases, tally.differ) == before {
        tally.count_different();
        println!(rt; "{file}: no case")?;
    }
    Ok(())
}

/// Runs the cases of the file of this name.
fn run_file<R: Files + Print + AllocGlobal + Threads + Wait + Sync>(
    rt: &R,
    file: &str,
    tally: &mut Tally,
) -> io::Result<()> {
    match fs::read_to_string(rt, file) {
        Ok(text) => run_cases(rt, file, text.as_str(), tally),
        Err(fault) => {
            tally.count_different();
            println!(rt; "{file}: {fault}")
        }
    }
}

/// Runs the cases of all files, and gives whether there are any and none differs.
pub(crate) fn run_files<R: Files + Print + AllocGlobal + Threads + Wait + Sync>(
    rt: &R,
    names: &[String],
) -> io::Result<bool> {
    let mut tally = Tally {
        cases: 0,
        differ: 0,
    };
    for name in names {
        run_file(rt, name.as_str(), &mut tally)?;
    }
    let Tally { cases, differ } = tally;
    println!(rt; "{cases} cases, {differ} differ")?;
    Ok(cases > 0 && differ == 0)
}

// What a case says.
use crate::line_fault::LineFault;
use crate::tool::Tool;
use std::alloc::Global;

/// One run of a tool over memory, and what it has to come to.
#[derive(Drop)]
pub(crate) struct Case<'a> {
    /// What it is called, and the number of its first line in its file.
    pub(crate) name: &'a str,
    pub(crate) line: usize,
    pub(crate) tool: Tool,
    pub(crate) words: Vec<String>,
    /// How many bytes a read gives at most, and a write takes.
    pub(crate) read: usize,
    pub(crate) write: usize,
    /// How many bytes the sink takes in all.
    pub(crate) room: usize,
    /// The numbers of the reads, of those of the second input, and of the writes and flushes, that fail.
    pub(crate) failing_reads: Vec<u64>,
    pub(crate) failing_file_reads: Vec<u64>,
    pub(crate) failing_writes: Vec<u64>,
    pub(crate) input: Vec<u8>,
    /// The second input, where the tool is to run over two.
    pub(crate) file: Option<Vec<u8>>,
    pub(crate) output: Vec<u8>,
    /// The exit status, once it was read.
    pub(crate) status: Option<u8>,
    /// How many calls the history of a day has, where the case says so.
    pub(crate) calls: Option<usize>,
    /// Whether the run is not to come to this, as in a case that tries the comparison.
    pub(crate) differs: bool,
}

/// A number of the case, of at least so many.
fn number(text: &str, least: usize) -> Result<usize, LineFault> {
    match text.parse::<usize>() {
        Ok(n) if n >= least => Ok(n),
        _ => Err(LineFault::BadLine),
    }
}

/// Puts a number of at least so many in a place of the case.
fn put(place: &mut usize, text: &str, least: usize) -> Result<(), LineFault> {
    *place = number(text, least)?;
    Ok(())
}

/// Adds the numbers with single spaces between them.
fn push_numbers(numbers: &mut Vec<u64>, text: &str) -> Result<(), LineFault> {
    for number in text.split(' ') {
        match number.parse::<u64>() {
            Ok(n) => numbers.push(n)?,
            Err(_) => return Err(LineFault::BadLine),
        }
    }
    Ok(())
}

/// Adds a word.
fn push_word(alloc: Global, words: &mut Vec<String>, word: &str) -> Result<(), LineFault> {
    words.push(word.to_string(alloc)?)?;
    Ok(())
}

/// Adds the words with spaces between them.
fn push_words(alloc: Global, words: &mut Vec<String>, text: &str) -> Result<(), LineFault> {
    for word in text.split_whitespace() {
        push_word(alloc, words, word)?;
    }
    Ok(())
}

/// Takes the status that a run has to end with, where none was said.
fn put_status(status: &mut Option<u8>, text: &str) -> Result<(), LineFault> {
    match (text.parse::<u8>(), *status) {
        (Ok(said), None) => {
            *status = Some(said);
            Ok(())
        }
        _ => Err(LineFault::BadLine),
    }
}

/// Takes how many calls the history of a day has.
fn put_calls(calls: &mut Option<usize>, text: &str) -> Result<(), LineFault> {
    *calls = Some(number(text, 0)?);
    Ok(())
}

impl<'a> Case<'a> {
    /// A case of which only its first line was read.
    pub(crate) fn begun(alloc: Global, name: &'a str, line: usize, tool: Tool) -> Case<'a> {
        Case {
            name,
            line,
            tool,
            words: Vec::new(alloc),
            read: 16,
            write: 1_400,
            room: 1_000_000,
            failing_reads: Vec::new(alloc),
            failing_file_reads: Vec::new(alloc),
            failing_writes: Vec::new(alloc),
            input: Vec::new(alloc),
            file: None,
            output: Vec::new(alloc),
            status: None,
            calls: None,
            differs: false,
        }
    }

    /// Takes a line, as its first word and the rest.
    pub(crate) fn take(&mut self, alloc: Global, word: &str, rest: &str) -> Result<(), LineFault> {
        match word {
            "words" => push_words(alloc, &mut self.words, rest),
            "word" => push_word(alloc, &mut self.words, rest),
            "failing-reads" => push_numbers(&mut self.failing_reads, rest),
            "failing-file-reads" => push_numbers(&mut self.failing_file_reads, rest),
            "failing-writes" => push_numbers(&mut self.failing_writes, rest),
            "status" => put_status(&mut self.status, rest),
            "read" => put(&mut self.read, rest, 1),
            "write" => put(&mut self.write, rest, 1),
            "room" => put(&mut self.room, rest, 0),
            "calls" => put_calls(&mut self.calls, rest),
            "differs" => {
                self.differs = true;
                Ok(())
            }
            _ => Err(LineFault::BadLine),
        }
    }
}

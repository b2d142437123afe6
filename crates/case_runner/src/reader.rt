// The cases of a file.
use crate::bytes::push_marked;
use crate::case::Case;
use crate::line::{first_word, is_silent, marked};
use crate::line_fault::LineFault;
use crate::text::{Text, text_named};
use crate::tool::Tool;
use std::alloc::Global;
use std::mem::replace;

/// What the lines that begin no part go into.
#[derive(Clone, Copy)]
enum Part {
    Nothing,
    Text,
    Words,
    Input,
    File,
    Output,
}

/// What the lines up to some line say.
#[derive(Drop)]
pub(crate) struct CaseReader<'a> {
    /// The number of the line that was read last, from 1.
    pub(crate) line: usize,
    /// The last case that began.
    pub(crate) case: Case<'a>,
    tool: Option<Tool>,
    names: Vec<&'a str>,
    /// The texts that are complete, and the last one that began.
    texts: Vec<Text<'a>>,
    text: Text<'a>,
    part: Part,
}

impl<'a> CaseReader<'a> {
    /// No line was read.
    pub(crate) fn new(alloc: Global) -> CaseReader<'a> {
        CaseReader {
            line: 0,
            case: Case::begun(alloc, "", 0, Tool::Draw),
            tool: None,
            names: Vec::new(alloc),
            texts: Vec::new(alloc),
            text: Text {
                name: "",
                bytes: Vec::new(alloc),
            },
            part: Part::Nothing,
        }
    }

    /// Ends the part that was read last, before the next one or the end of the file; gives whether it is a case.
    pub(crate) fn end_part(&mut self, alloc: Global) -> Result<bool, LineFault> {
        match replace(&mut self.part, Part::Nothing) {
            Part::Nothing => Ok(false),
            Part::Text => {
                let next = Text {
                    name: "",
                    bytes: Vec::new(alloc),
                };
                self.texts.push(replace(&mut self.text, next))?;
                Ok(false)
            }
            Part::Words | Part::Input | Part::File | Part::Output => match self.case.status {
                Some(_) => Ok(true),
                None => Err(LineFault::NoStatus),
            },
        }
    }

    /// Begins a text.
    fn begin_text(&mut self, name: &'a str) -> Result<(), LineFault> {
        if text_named(self.texts.as_slice(), name).is_ok() {
            return Err(LineFault::SameName);
        }
        self.text.name = name;
        self.part = Part::Text;
        Ok(())
    }

    /// Begins a case.
    fn begin_case(&mut self, alloc: Global, name: &'a str) -> Result<(), LineFault> {
        let Some(tool) = self.tool else {
            return Err(LineFault::NoTool);
        };
        if self.names.as_slice().contains(&name) {
            return Err(LineFault::SameName);
        }
        self.names.push(name)?;
        self.case = Case::begun(alloc, name, self.line, tool);
        self.part = Part::Words;
        Ok(())
    }

    /// Begins the second input of a case whose tool takes two.
    fn begin_file(&mut self, alloc: Global) -> Result<(), LineFault> {
        if !self.case.tool.takes_two() || self.case.file.is_some() {
            return Err(LineFault::BadLine);
        }
        self.case.file = Some(Vec::new(alloc));
        self.part = Part::File;
        Ok(())
    }

    /// Takes the tool of the cases from here on.
    fn take_tool(&mut self, name: &str) -> Result<(), LineFault> {
        self.tool = Tool::named(name);
        match self.tool {
            Some(_) => Ok(()),
            None => Err(LineFault::BadLine),
        }
    }

    /// Takes a line that stands for bytes.
    fn take_bytes(&mut self, mark: char, rest: &str) -> Result<(), LineFault> {
        let texts = self.texts.as_slice();
        match self.part {
            Part::Text => push_marked(&mut self.text.bytes, texts, mark, rest),
            Part::Input => push_marked(&mut self.case.input, texts, mark, rest),
            Part::File => match &mut self.case.file {
                Some(file) => push_marked(file, texts, mark, rest),
                None => Err(LineFault::BadLine),
            },
            Part::Output => push_marked(&mut self.case.output, texts, mark, rest),
            Part::Nothing | Part::Words => Err(LineFault::BadLine),
        }
    }

    /// Takes a line of words, of a case.
    fn take_words(&mut self, alloc: Global, word: &str, rest: &str) -> Result<(), LineFault> {
        match (self.part, word) {
            (Part::Nothing | Part::Text, _) => return Err(LineFault::BadLine),
            (_, "input") => self.part = Part::Input,
            (_, "file") => return self.begin_file(alloc),
            (_, "output") => self.part = Part::Output,
            _ => return self.case.take(alloc, word, rest),
        }
        Ok(())
    }

    /// Takes a line.
    pub(crate) fn take(&mut self, alloc: Global, line: &'a str) -> Result<(), LineFault> {
        self.line = self.line.saturating_add(1);
        if is_silent(line) {
            return Ok(());
        }
        if let Some((mark, rest)) = marked(line) {
            return self.take_bytes(mark, rest);
        }
        match first_word(line) {
            ("tool", name) => self.take_tool(name),
            ("text", name) => self.begin_text(name),
            ("case", name) => self.begin_case(alloc, name),
            (word, rest) => self.take_words(alloc, word, rest),
        }
    }
}

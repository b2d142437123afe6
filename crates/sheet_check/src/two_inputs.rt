// A text and its file from two sources.
ghost use Rattle.std.specs.Prelude.{◌≡◌, Ok, Some, IfErr, IfOk, OnOk};
ghost use Rattle.tool_edge.specs.Opening.{ReadsAll};
ghost use Rattle.tool_edge.specs.Streams.{reading, writing};
ghost use Rattle.sheet_check.specs.TwoInputs.{StopsOpeningTwo};

use byte_edge::{Sink, Source};
use meek_words::WordsStop;
use std::alloc::Global;
use tool_edge::{End, Fault, Opened, open, read_input};

/// What the words ask for, a whole text, and the whole file by which it is judged.
#[derive(Drop)]
pub struct TwoInputs<A> {
    pub asked: A,
    pub text: Vec<u8>,
    pub file: Vec<u8>,
}

/// How many bytes a text and its file may have.
#[derive(Clone, Copy)]
pub struct TwoLimits {
    pub text: usize,
    pub file: usize,
}

/// Reads the text to its end and then the file, if the words ask for something. Otherwise, or where one of them can't
/// be read to its end, the run is over: what the sink is owed was written.
pub fn open_two<A: Drop, F: Fault, T: Source, S: Source, K: Sink>(
    alloc: Global,
    asked: Result<A, WordsStop>,
    limits: TwoLimits,
    of_text: &mut T,
    of_file: &mut S,
    sink: &mut K,
) -> Result<TwoInputs<A>, End<F>>
    ensures asked { IfOk result (λ inputs. asked ≡ Ok inputs.asked) }
    ensures text { IfOk result (λ inputs.
        ReadsAll (Some limits.text) inputs.text.items (reading T.left T.faults of_text.old of_text.new)) }
    ensures file { IfOk result (λ inputs.
        ReadsAll (Some limits.file) inputs.file.items (reading S.left S.faults of_file.old of_file.new)) }
    ensures untouched { OnOk result (sink.new ≡ sink.old) }
    ensures stopped { IfErr result (λ end. StopsOpeningTwo F.refusals limits.text limits.file asked end
        (reading T.left T.faults of_text.old of_text.new) (reading S.left S.faults of_file.old of_file.new)
        (writing K.written K.faults sink.old sink.new)) }
{
    let Opened { asked, input: text } = open(alloc, asked, limits.text, of_text, sink)?;
    let file = read_input(alloc, limits.file, of_file, sink)?;
    Ok(TwoInputs { asked, text, file })
}

// Lines put to a text.
ghost use Rattle.std.specs.Prelude.{◌≡◌, ◌+◌, ◌≤◌, ◌++◌, length, decimal, OnOk};
ghost use Rattle.meek_trial.specs.Trial.{number_then};

use crate::NoMemory;
use line_text::Line;

/// Puts bytes to a text.
pub(crate) fn put(text: &mut Vec<u8>, bytes: &[u8]) -> Result<(), NoMemory>
    ensures { OnOk result (text.new.items ≡ text.old.items ++ bytes.now) }
{
    match text.extend_from_slice(bytes) {
        Ok(()) => Ok(()),
        Err(_) => Err(NoMemory),
    }
}

/// Puts a line to a text.
pub(crate) fn put_line(text: &mut Vec<u8>, line: &Line) -> Result<(), NoMemory>
    ensures { OnOk result (text.new.items ≡ text.old.items ++ line.now) }
{
    put(text, line.bytes())
}

/// Puts a line of a word, which brings its space, and a number.
#[tactic(auto, using(crate::proofs::Rooms::rooms))]
pub(crate) fn put_numbered(text: &mut Vec<u8>, word: &[u8], number: u64) -> Result<(), NoMemory>
    requires { length word.now ≤ 20 }
    ensures { OnOk result (text.new.items ≡ text.old.items ++ (word.now ++ number_then 10 number)) }
{
    let mut line = Line::new();
    line.push_bytes(word);
    push_number(&mut line, number, b"\n");
    put_line(text, &line)
}

/// Appends a number and the byte after it.
#[tactic(auto, using(crate::proofs::Rooms::rooms))]
pub(crate) fn push_number(line: &mut Line, n: u64, behind: &[u8])
    requires room { length line.old ≤ 1000 }
    requires one { length behind.now ≡ 1 }
    ensures text { line.new ≡ line.old ++ (decimal n ++ behind.now) }
    ensures bound { length line.new ≤ length line.old + 21 }
{
    line.push_count(n);
    line.push_bytes(behind);
}

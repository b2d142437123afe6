// An iteration in a sheet.
ghost use Rattle.std.specs.Prelude.{◌≡◌, ◌≤◌, ◌<◌, [], ◌∷◌, length, OnOk, OnErr};
ghost use Rattle.std.specs.Io.KnownBytes.{Appends};
ghost use Rattle.plain_ballots.specs.declared.limits.TheConstants.{MOST_CANDIDATES};
ghost use Rattle.byte_edge.specs.Bytes.{AppendsFront};
ghost use Rattle.byte_edge.specs.Faults.{CountsFault};
ghost use Rattle.meek_rule.specs.Places.{each_place};
ghost use Rattle.meek_rule.specs.Row.{HasRoomFor};
ghost use Rattle.sheet_text.specs.Lines.{text_of_lines, row_lines, number_line, candidate_line, amount_lines, decision_lines, marked_lines, step_line};
ghost use Rattle.sheet_text.specs.Writing.{Writes};

use crate::line_end::{end_line, write_amount_line};
use crate::words::{begin_candidate, is_any, push_listed};
use byte_edge::{Failed, Sink};
use line_text::Line;
use lot_order::Flags;
use meek_rule::{Row, Step};

/// Writes an iteration: its numbers, each candidate's state, keep value and vote as they were in it, the
/// amounts, and what was decided. All lists of the row have as many items, at most 250.
pub fn write_row<const P: usize, K: Sink>(row: &Row<P>, sink: &mut K) -> Result<(), Failed>
    requires equally_long { HasRoomFor (length row.now.states) row.now }
    requires few { length row.now.states ≤ MOST_CANDIDATES }
    ensures all { OnOk result
        (Appends (K.written sink.old) (K.written sink.new) (text_of_lines (row_lines P row.now))) }
    ensures front { OnErr result
        (AppendsFront (K.written sink.old) (K.written sink.new) (text_of_lines (row_lines P row.now))) }
    ensures faults { CountsFault (K.faults sink.old) (K.faults sink.new) result }
{
    let mut line = Line::new();
    write_row_by(&mut line, row, sink)
}

/// The same by a line that is there already.
pub(crate) fn write_row_by<const P: usize, K: Sink>(
    line: &mut Line,
    row: &Row<P>,
    sink: &mut K,
) -> Result<(), Failed>
    requires equally_long { HasRoomFor (length row.now.states) row.now }
    requires few { length row.now.states ≤ MOST_CANDIDATES }
    ensures { Writes K.written K.faults sink.old sink.new (row_lines P row.now) result }
{
    write_numbers(line, row, sink)?;
    write_candidates(line, row, sink)?;
    write_amounts(line, row, sink)?;
    write_decision(line, row, sink)
}

#[tactic(auto, using(crate::proofs::Rooms::rooms))]
fn write_numbers<const P: usize, K: Sink>(
    line: &mut Line,
    row: &Row<P>,
    sink: &mut K,
) -> Result<(), Failed>
    ensures { Writes K.written K.faults sink.old sink.new (number_line row.now ∷ []) result }
{
    line.clear();
    line.push_bytes(b"round ");
    line.push_count(row.round as u64);
    line.push_bytes(b" iteration ");
    line.push_count(row.iteration);
    end_line(line, sink)
}

fn write_candidates<const P: usize, K: Sink>(
    line: &mut Line,
    row: &Row<P>,
    sink: &mut K,
) -> Result<(), Failed>
    requires equally_long { HasRoomFor (length row.now.states) row.now }
    requires few { length row.now.states ≤ MOST_CANDIDATES }
    ensures { Writes K.written K.faults sink.old sink.new
        (each_place (length row.now.states) (candidate_line P row.now)) result }
{
    for p in 0..row.states.len() {
        push_candidate(line, row, p);
        end_line(line, sink)?;
    }
    Ok(())
}

/// Makes the line that of the candidate at place `p`.
#[tactic(auto, using(crate::proofs::Rooms::rooms), unfolding(crate::specs::Lines::candidate_line))]
fn push_candidate<const P: usize>(line: &mut Line, row: &Row<P>, p: usize)
    requires equally_long { HasRoomFor (length row.now.states) row.now }
    requires few { length row.now.states ≤ MOST_CANDIDATES }
    requires place { p < length row.now.states }
    ensures text { line.new ≡ candidate_line P row.now p }
    ensures short { length line.new ≤ 100 }
{
    let keep = *row.keeps.get(p);
    let vote = *row.votes.get(p);
    let _units = (keep.units(), vote.units());
    begin_candidate(line, p, *row.states.get(p));
    line.push_keep(keep);
    line.push_bytes(b" ");
    line.push_amount(vote);
}

fn write_amounts<const P: usize, K: Sink>(
    line: &mut Line,
    row: &Row<P>,
    sink: &mut K,
) -> Result<(), Failed>
    ensures { Writes K.written K.faults sink.old sink.new (amount_lines P row.now) result }
{
    write_amount_line(line, b"total ", row.total, sink)?;
    write_amount_line(line, b"quota ", row.quota, sink)?;
    write_amount_line(line, b"surplus ", row.surplus, sink)
}

/// Who was elected, who was capped, and the step.
fn write_decision<const P: usize, K: Sink>(
    line: &mut Line,
    row: &Row<P>,
    sink: &mut K,
) -> Result<(), Failed>
    requires equally_long { HasRoomFor (length row.now.states) row.now }
    requires few { length row.now.states ≤ MOST_CANDIDATES }
    ensures { Writes K.written K.faults sink.old sink.new (decision_lines row.now) result }
{
    write_marked(line, b"elected", &row.elected, sink)?;
    write_marked(line, b"capped", &row.capped, sink)?;
    write_step(line, row.step, &row.tied, sink)
}

/// A line of a word and the marked candidates, where there is one.
fn write_marked<K: Sink>(
    line: &mut Line,
    word: &[u8],
    marks: &Flags,
    sink: &mut K,
) -> Result<(), Failed>
    requires short { length word.now ≤ 100 }
    requires few { length marks.now ≤ MOST_CANDIDATES }
    ensures { Writes K.written K.faults sink.old sink.new (marked_lines word.now marks.now) result }
{
    if !is_any(marks) {
        return Ok(());
    }
    line.clear();
    line.push_bytes(word);
    push_listed(line, marks);
    end_line(line, sink)
}

fn write_step<K: Sink>(
    line: &mut Line,
    step: Step,
    tied: &Flags,
    sink: &mut K,
) -> Result<(), Failed>
    requires { length tied.now ≤ MOST_CANDIDATES }
    ensures { Writes K.written K.faults sink.old sink.new (step_line step tied.now ∷ []) result }
{
    push_step(line, step, tied);
    end_line(line, sink)
}

#[tactic(auto, using(crate::proofs::Rooms::rooms), unfolding(crate::specs::Lines::step_line))]
fn push_step(line: &mut Line, step: Step, tied: &Flags)
    requires { length tied.now ≤ MOST_CANDIDATES }
    ensures text { line.new ≡ step_line step tied.now }
    ensures short { length line.new < 1400 }
{
    line.clear();
    match step {
        Step::Elected => line.push_bytes(b"step elected"),
        Step::Iterate => line.push_bytes(b"step iterate"),
        Step::Defeat(c) => {
            line.push_bytes(b"step defeat ");
            line.push_count(c as u64);
            line.push_bytes(b" tied");
            push_listed(line, tied);
        }
    }
}

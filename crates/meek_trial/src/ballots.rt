// The ballot lines of a batch.
ghost use Rattle.std.specs.Prelude.{◌≡◌, ◌+◌, ◌*◌, ◌/◌, ◌%◌, ◌<◌, ◌≤◌, ◌++◌, [], ◌∷◌, length, OnOk};
ghost use Rattle.meek_trial.specs.Draws.{stride, candidate, ranking};
ghost use Rattle.meek_trial.specs.Trial.{spaced, ballot, ballots, lines};

use crate::NoMemory;
use crate::draws::Draws;
use crate::text::{push_number, put, put_line};
use line_text::Line;

/// Puts forty ballot lines and a 0 to a text.
pub(crate) fn put_lines(text: &mut Vec<u8>, draws: &mut Draws) -> Result<(), NoMemory>
    requires { draws.old.taken ≤ 900000 }
    ensures text { OnOk result (text.new.items ≡ text.old.items ++ lines draws.old.number draws.old.taken) }
    ensures drawn { OnOk result (draws.new ≡ record draws.old { taken = draws.old.taken + 40 }) }
{
    put_ballots(text, draws)?;
    put(text, b"0\n")
}

/// Puts the forty ballot lines of a batch to a text.
fn put_ballots(text: &mut Vec<u8>, draws: &mut Draws) -> Result<(), NoMemory>
    requires { draws.old.taken ≤ 900000 }
    ensures text { OnOk result (text.new.items ≡ text.old.items ++ ballots draws.old.number draws.old.taken 40) }
    ensures drawn { OnOk result (draws.new ≡ record draws.old { taken = draws.old.taken + 40 }) }
{
    for l in 0..40 {
        put_ballot(text, l, draws.draw())?;
    }
    Ok(())
}

/// Puts line l of a batch to a text, by the number drawn for it.
#[tactic(auto, using(crate::proofs::Rooms::rooms))]
fn put_ballot(text: &mut Vec<u8>, l: u64, x: u64) -> Result<(), NoMemory>
    ensures { OnOk result (text.new.items ≡ text.old.items ++ ballot l x) }
{
    let mut line = Line::new();
    push_number(&mut line, 1 + l % 9, b" ");
    push_ranking(&mut line, x);
    line.push_bytes(b"0\n");
    put_line(text, &line)
}

/// Appends the candidates of a ballot, each with a space after it.
#[tactic(auto, using(crate::proofs::Rooms::rooms))]
fn push_ranking(line: &mut Line, x: u64)
    requires { length line.old ≤ 30 }
    ensures text { line.new ≡ line.old ++ spaced (ranking x) }
    ensures bound { length line.new ≤ 300 }
{
    for j in 0..1 + x / 65_536 % 8 {
        push_candidate(line, candidate(x, j));
    }
}

#[tactic(auto, using(crate::proofs::Rooms::rooms))]
fn push_candidate(line: &mut Line, c: u64)
    requires { length line.old ≤ 300 }
    ensures text { line.new ≡ line.old ++ spaced (c ∷ []) }
    ensures bound { length line.new ≤ length line.old + 21 }
{
    push_number(line, c, b" ");
}

/// The candidate at a place of a ballot, from 0.
fn candidate(x: u64, j: u64) -> u64
    requires { j < 8 }
    ensures value { result ≡ candidate x j }
    ensures bound { result ≤ 12 }
{
    1 + (x / 16 % 12 + j * stride(x)) % 12
}

/// How far a candidate of a ballot stands from the one before.
fn stride(x: u64) -> u64
    ensures value { result ≡ stride x }
    ensures bound { result ≤ 11 }
{
    let k = x / 4096 % 4;
    if k == 0 {
        1
    } else if k == 1 {
        5
    } else if k == 2 {
        7
    } else {
        11
    }
}

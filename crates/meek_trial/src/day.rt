// The text of a day.
ghost use Rattle.std.specs.Prelude.{◌≡◌, ◌+◌, ◌≤◌, ◌++◌, OnOk, IfOk};
ghost use Rattle.meek_trial.specs.declared.day.TheConstants.{MOST_TRIAL};
ghost use Rattle.meek_trial.specs.Trial.{entering, correcting, withdrawing, batch, batches, draws_before, first, one_team, teams, head, title_line, trial_day};

use crate::NoMemory;
use crate::ballots::put_lines;
use crate::draws::Draws;
use crate::text::{push_number, put, put_line, put_numbered};
use line_text::Line;
use std::alloc::Global;

/// The greatest number that a day is made from.
pub const MOST_TRIAL: u32 = 1000;

/// A day of ballot entry made from a number: twelve candidates, four seats, and four teams, each of
/// which enters as many batches as the number says. Every batch has 190 ballots in forty lines; every
/// third batch is corrected, and every seventh is withdrawn.
#[tactic(auto, unfolding(crate::specs::Trial::trial_day))]
pub fn make_day(alloc: Global, number: u32) -> Result<Vec<u8>, NoMemory>
    requires { (1 ≤ number) × (number ≤ MOST_TRIAL) }
    ensures { IfOk result (λ text. text.items ≡ trial_day number) }
{
    let mut text = Vec::new(alloc);
    let number = number as u64;
    put_head(&mut text, number)?;
    put_teams(&mut text, number)?;
    put(&mut text, b"end\n")?;
    Ok(text)
}

fn put_head(text: &mut Vec<u8>, number: u64) -> Result<(), NoMemory>
    ensures { OnOk result (text.new.items ≡ text.old.items ++ head number) }
{
    put(
        text,
        b"12 4\n0\n\"C1\"\n\"C2\"\n\"C3\"\n\"C4\"\n\"C5\"\n\"C6\"\n\"C7\"\n\"C8\"\n\"C9\"\n\"C10\"\n\"C11\"\n\"C12\"\n",
    )?;
    put_title(text, number)?;
    put(text, b"lots 12 11 10 9 8 7 6 5 4 3 2 1 0\n")
}

#[tactic(auto, using(crate::proofs::Rooms::rooms))]
fn put_title(text: &mut Vec<u8>, number: u64) -> Result<(), NoMemory>
    ensures { OnOk result (text.new.items ≡ text.old.items ++ title_line number) }
{
    let mut line = Line::new();
    line.push_bytes(b"\"Trial ");
    line.push_count(number);
    line.push_bytes(b"\"\n");
    put_line(text, &line)
}

fn put_teams(text: &mut Vec<u8>, number: u64) -> Result<(), NoMemory>
    requires { number ≤ MOST_TRIAL }
    ensures { OnOk result (text.new.items ≡ text.old.items ++ teams number 4) }
{
    let mut draws = Draws::new(number);
    for team in 0..4 {
        put_team(text, &mut draws, number, team + 1)?;
    }
    Ok(())
}

fn put_team(text: &mut Vec<u8>, draws: &mut Draws, number: u64, team: u64) -> Result<(), NoMemory>
    requires number { number ≤ MOST_TRIAL }
    requires team { (1 ≤ team) × (team ≤ 4) }
    requires draws { draws.old ≡ record { number = number; taken = draws_before (first number team) } }
    ensures text { OnOk result (text.new.items ≡ text.old.items ++ one_team number team) }
    ensures draws { OnOk result (draws.new ≡ record { number = number; taken = draws_before (first number (team + 1)) }) }
{
    put_numbered(text, b"team ", team)?;
    put_batches(text, draws, number, team)
}

fn put_batches(
    text: &mut Vec<u8>,
    draws: &mut Draws,
    number: u64,
    team: u64,
) -> Result<(), NoMemory>
    requires number { number ≤ MOST_TRIAL }
    requires team { (1 ≤ team) × (team ≤ 4) }
    requires draws { draws.old ≡ record { number = number; taken = draws_before (first number team) } }
    ensures text { OnOk result (text.new.items ≡ text.old.items ++ batches number team number) }
    ensures draws { OnOk result (draws.new ≡ record { number = number; taken = draws_before (first number (team + 1)) }) }
{
    let first = (team - 1) * number + 1;
    for k in 0..number {
        put_batch(text, draws, first + k)?;
    }
    Ok(())
}

fn put_batch(text: &mut Vec<u8>, draws: &mut Draws, b: u64) -> Result<(), NoMemory>
    requires batch { (1 ≤ b) × (b ≤ 4000) }
    requires draws { draws.old.taken ≡ draws_before b }
    ensures text { OnOk result (text.new.items ≡ text.old.items ++ batch draws.old.number b) }
    ensures draws { OnOk result (draws.new ≡ record draws.old { taken = draws_before (b + 1) }) }
{
    put_entry(text, draws, b)?;
    put_correction(text, draws, b)?;
    put_withdrawal(text, b)
}

fn put_entry(text: &mut Vec<u8>, draws: &mut Draws, b: u64) -> Result<(), NoMemory>
    requires batch { (1 ≤ b) × (b ≤ 4000) }
    requires draws { draws.old.taken ≡ draws_before b }
    ensures text { OnOk result (text.new.items ≡ text.old.items ++ entering draws.old.number b) }
    ensures draws { OnOk result (draws.new ≡ record draws.old { taken = draws_before b + 40 }) }
{
    put_numbered(text, b"enter ", b)?;
    put_lines(text, draws)
}

#[tactic(auto, using(crate::proofs::Rooms::rooms))]
fn put_correction(text: &mut Vec<u8>, draws: &mut Draws, b: u64) -> Result<(), NoMemory>
    requires batch { (1 ≤ b) × (b ≤ 4000) }
    requires draws { draws.old.taken ≡ draws_before b + 40 }
    ensures text { OnOk result (text.new.items ≡ text.old.items ++ correcting draws.old.number b) }
    ensures draws { OnOk result (draws.new ≡ record draws.old { taken = draws_before (b + 1) }) }
{
    if b % 3 != 0 {
        return Ok(());
    }
    let mut line = Line::new();
    line.push_bytes(b"correct ");
    push_number(&mut line, b, b" ");
    line.push_bytes(b"1\n");
    put_line(text, &line)?;
    put_lines(text, draws)
}

#[tactic(auto, using(crate::proofs::Rooms::rooms))]
fn put_withdrawal(text: &mut Vec<u8>, b: u64) -> Result<(), NoMemory>
    ensures { OnOk result (text.new.items ≡ text.old.items ++ withdrawing b) }
{
    if b % 7 != 0 {
        return Ok(());
    }
    let revision = if b % 3 == 0 { 2 } else { 1 };
    let mut line = Line::new();
    line.push_bytes(b"withdraw ");
    push_number(&mut line, b, b" ");
    push_number(&mut line, revision, b"\n");
    put_line(text, &line)
}

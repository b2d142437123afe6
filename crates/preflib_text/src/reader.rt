// The reader of texts.
ghost use Rattle.std.specs.Prelude.{◌≡◌, None, Some, true, OnOk, IfOk, IfErr};
ghost use Rattle.std.specs.Option.{option_map_or};
ghost use Rattle.plain_ballots.specs.Ballots.{ballot_count};
ghost use Rattle.preflib_text.specs.Heading.{heading_fault};
ghost use Rattle.preflib_text.specs.Imported.{IsImported};
ghost use Rattle.preflib_text.specs.Metadata.{is_few};
ghost use Rattle.preflib_text.specs.Reading.{end_of};
ghost use Rattle.preflib_text.specs.Refusals.{fault_of_text, voters_fault};
ghost use Rattle.preflib_text.specs.Stops.{IsPrefStop};

use crate::counted::Counted;
use crate::head::Head;
use crate::lines::Lines;
use crate::order_lines::read_orders;
use crate::{Imported, PrefAsked, PrefFault, PrefKind, PrefStop};
use std::alloc::Global;

/// What a text of PrefLib says, or why it is refused. It takes memory for the names, the title and the ballots.
pub fn read_preflib(
    alloc: Global,
    asked: &PrefAsked<'_>,
    bytes: &[u8],
) -> Result<Imported, PrefStop>
    ensures imported { IfOk result (IsImported asked.now bytes.now) }
    ensures sound { OnOk result (fault_of_text asked.now bytes.now ≡ None) }
    ensures stop { IfErr result (IsPrefStop (fault_of_text asked.now bytes.now)) }
{
    let mut lines = Lines::new(bytes);
    let head = Head::read(alloc, asked, &mut lines)?;
    let candidates = candidates(asked, &head, &lines)?;
    let counted = read_orders(alloc, &mut lines, asked.equal(), candidates)?;
    if let Some(fault) = total_fault(&head, &counted, &lines) {
        return Err(PrefStop::Fault(fault));
    }
    Ok(Imported {
        names: head.names(alloc, candidates)?,
        title: head.title(alloc, asked)?,
        ballots: counted.ballots,
        tally: counted.tally,
    })
}

/// How many candidates there are, where these lines stand after the metadata.
fn candidates(asked: &PrefAsked<'_>, head: &Head<'_>, lines: &Lines<'_>) -> Result<u32, PrefFault>
    requires { option_map_or is_few head.now.candidates true ≡ true }
    ensures candidates { IfOk result (λ n. head.now.candidates ≡ Some n) }
    ensures sound { OnOk result (heading_fault asked.now head.now lines.now ≡ None) }
    ensures stop { IfErr result (λ fault. heading_fault asked.now head.now lines.now ≡ Some fault) }
{
    match lines.peek() {
        Some(line) => match line.form() {
            Some(fault) => Err(fault),
            None => head.whole(asked, &line),
        },
        None => head.whole(asked, &lines.end()),
    }
}

/// The number of voters is that of the ballots, where all lines are read.
fn total_fault(head: &Head<'_>, counted: &Counted, lines: &Lines<'_>) -> Option<PrefFault>
    ensures { result ≡ voters_fault head.now.voters (ballot_count counted.now.ballots.lines) (end_of lines.now) }
{
    match head.voters() {
        Some(n) if n as u64 != counted.ballots.total() => {
            Some(lines.end().fault(PrefKind::WrongTotal, 0))
        }
        _ => None,
    }
}

// Numbers and lines of ballots.
ghost use Rattle.std.specs.Prelude.{◌++◌, ◌∷◌, [], decimal};
ghost use Rattle.std.specs.List.{flat_map};
ghost use Rattle.piece_text.specs.Writing.{Writes};
ghost use Rattle.blt_writer.specs.Merge.{written};
ghost use Rattle.blt_writer.specs.Text.{ballot_text, number_then};

use byte_edge::{Failed, Sink};
use itoa::Buffer;
use piece_text::write_bytes;

/// Writes a number and the byte after it.
pub(crate) fn write_number<K: Sink>(n: u64, behind: u8, sink: &mut K) -> Result<(), Failed>
    ensures { Writes K.written K.faults sink.old sink.new (number_then behind n) result }
{
    let mut buffer = Buffer::new();
    write_bytes(buffer.format(n).as_bytes(), sink)?;
    write_bytes(&[behind], sink)
}

/// Writes the line of a ranking that so many ballots have, if there are any.
pub(crate) fn write_ballots<K: Sink>(
    count: u64,
    ranking: &[u16],
    sink: &mut K,
) -> Result<(), Failed>
    ensures { Writes K.written K.faults sink.old sink.new
        (flat_map ballot_text (written (record { count = count; ranking = ranking.now }))) result }
{
    if count == 0 {
        return Ok(());
    }
    write_line(count, ranking, sink)
}

fn write_line<K: Sink>(count: u64, ranking: &[u16], sink: &mut K) -> Result<(), Failed>
    ensures { Writes K.written K.faults sink.old sink.new
        (ballot_text (record { count = count; ranking = ranking.now })) result }
{
    write_number(count, b' ', sink)?;
    write_candidates(ranking, sink)?;
    write_bytes(b"0\n", sink)
}

fn write_candidates<K: Sink>(ranking: &[u16], sink: &mut K) -> Result<(), Failed>
    ensures { Writes K.written K.faults sink.old sink.new
        (flat_map (number_then 32) ranking.now) result }
{
    for candidate in ranking {
        write_number(*candidate as u64, b' ', sink)?;
    }
    Ok(())
}

// The lines of other ballots after these.
ghost use Rattle.std.specs.Prelude.{◌≡◌, ◌+◌, ◌^◌, ◌≤◌, ◌<◌, ◌++◌, All, length, map, vec_len, vec_capacity, OnErr, OnOk};
ghost use Rattle.packed_ballots.specs.Packed.{raised};

use crate::{NoMemory, PackedLine};

/// Puts other lines after these, and the bytes of their ranks after these.
pub(crate) fn append_lines(
    bytes: &mut Vec<u8>,
    lines: &mut Vec<PackedLine>,
    other_bytes: Vec<u8>,
    others: &[PackedLine],
) -> Result<(), NoMemory>
    requires { All (λ line. line.start ≤ length other_bytes.items) others.now }
    ensures bytes { OnOk result (bytes.new.items ≡ bytes.old.items ++ other_bytes.items) }
    ensures lines { OnOk result (lines.new.items ≡ lines.old.items ++ map (raised (length bytes.old.items)) others.now) }
    ensures bytes_kept { OnErr result (bytes.new.items ≡ bytes.old.items) }
    ensures lines_kept { OnErr result (lines.new.items ≡ lines.old.items) }
{
    let mut other_bytes = other_bytes;
    let by = bytes.len();
    if by + other_bytes.len() > u32::MAX as usize {
        return Err(NoMemory);
    }
    lines.reserve(others.len())?;
    bytes.append(&mut other_bytes)?;
    put_raised(lines, others, by as u32);
    Ok(())
}

/// Puts lines after the others, where there is room for them, each with its ranking so many bytes further.
fn put_raised(lines: &mut Vec<PackedLine>, others: &[PackedLine], by: u32)
    requires inside { All (λ line. line.start + by < 2 ^ 32) others.now }
    requires room { vec_len lines.old + length others.now ≤ vec_capacity lines.old }
    ensures { lines.new.items ≡ lines.old.items ++ map (raised by) others.now }
{
    for line in others {
        lines.push_reserved(PackedLine {
            start: line.start + by,
            ..*line
        });
    }
}

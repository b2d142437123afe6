// A ballot file after a sheet.
ghost use Rattle.std.specs.Prelude.{◌≡◌, ◌+◌, ◌≤◌, length};
ghost use Rattle.tool_edge.specs.Contest.{behind};
ghost use Rattle.tool_edge.specs.Refusals.{too_long};
ghost use Rattle.tool_edge.specs.declared.opening.TheConstants.{FILE_LIMIT};
ghost use Rattle.sheet_check.specs.Behind.{ReadsFileBehind};
ghost use Rattle.sheet_input.specs.declared.sheet_limit.TheConstants.{SHEET_LIMIT};

use blt_reader::{BltStop, FaultKind};
use std::alloc::Global;
use tool_edge::{Contest, FILE_LIMIT};

/// Reads a ballot file that is after so many bytes, and takes these lots for it. A fault of the file
/// has its place in the whole.
pub(crate) fn read_file_behind(
    alloc: Global,
    before: usize,
    lots: &[u32],
    file: &[u8],
) -> Result<Contest, BltStop>
    requires { before + length file.now ≤ SHEET_LIMIT }
    ensures { ReadsFileBehind before lots.now file.now result }
{
    if file.len() > FILE_LIMIT {
        return Err(too_long_behind(before));
    }
    Contest::read_behind(alloc, before, lots, file)
}

/// The fault of a ballot file after so many bytes that is too long: the first byte too many.
fn too_long_behind(before: usize) -> BltStop
    requires { before ≤ SHEET_LIMIT }
    ensures { result ≡ BltStop.Fault (behind before (too_long FILE_LIMIT)) }
{
    BltStop::refused(FaultKind::TooLong, before + FILE_LIMIT)
}

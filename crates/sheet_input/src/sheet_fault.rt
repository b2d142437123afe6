// Why a tool refuses the sheet that it reads.
ghost use Rattle.std.specs.Prelude.{◌≡◌};
ghost use Rattle.sheet_input.specs.Sheets.{malformed_line, sheet_refusals};

use input_text::InputFault;
use line_text::Line;
use tool_edge::Fault;

/// Why an input that should be a sheet is refused.
#[derive(Clone, Copy, Debug, PartialEq, Eq)]
pub enum SheetFault {
    /// It has more bytes than so many, the most that are read.
    TooLong(usize),
    /// It is no sheet.
    Malformed,
}

impl Fault for SheetFault {
    ghost refusals = { sheet_refusals };

    fn line(&self) -> Line {
        match self {
            SheetFault::TooLong(most) => InputFault::too_long(*most).line(),
            SheetFault::Malformed => malformed_line(),
        }
    }

    fn too_long(most: usize) -> SheetFault {
        SheetFault::TooLong(most)
    }
}

/// The line of an input that is no sheet.
fn malformed_line() -> Line
    ensures { result ≡ malformed_line }
{
    let mut line = Line::new();
    line.push_bytes(b"sheet malformed\n");
    line
}

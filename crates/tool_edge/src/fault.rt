// Why an input is refused.
ghost use Rattle.std.specs.Prelude.{◌≡◌};
ghost use Rattle.tool_edge.specs.Refusals.{Refusals, file_refusals};

use crate::refusal::fault_line;
use blt_reader::{FaultKind, InputFault};
use line_text::Line;

/// Why an input is refused. Each tool may have faults of its own kind, and an [`InputFault`] is that of a
/// file.
pub trait Fault: Copy {
    /// How inputs are refused with such faults.
    ghost refusals: { Refusals Self };

    /// The line that answers the input, with its line feed.
    fn line(&self) -> Line
        ensures { result ≡ refusals.line self.now };

    /// The fault of an input of more bytes than may be read.
    fn too_long(most: usize) -> Self
        ensures { result ≡ refusals.too_long most };
}

impl Fault for InputFault {
    ghost refusals = { file_refusals };

    fn line(&self) -> Line {
        fault_line(*self)
    }

    fn too_long(most: usize) -> InputFault {
        InputFault {
            kind: FaultKind::TooLong,
            at: most,
        }
    }
}

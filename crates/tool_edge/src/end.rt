// How a run ended.
ghost use Rattle.std.specs.Prelude.{◌≡◌, ◌≤◌};
ghost use Rattle.std.specs.Process.{exit_status};
ghost use Rattle.tool_edge.specs.End.{code_of};

use blt_reader::InputFault;
use std::process::ExitCode;

/// How a run ended. The input may be refused for such a fault.
#[derive(Clone, Copy, Debug, PartialEq, Eq)]
pub enum End<F = InputFault> {
    /// All was done.
    Done,
    /// Reading failed. Nothing was written.
    SourceFault,
    /// The words ask for nothing that is done here. Their line was written.
    BadWords,
    /// The input is refused, for this fault. Its line was written.
    BadInput(F),
    /// Writing failed. A front of what was owed was written.
    SinkFault,
    /// There was not enough memory. Nothing was written.
    NoMemory,
}

impl<F> End<F> {
    /// The exit status of a program whose run ended so.
    pub fn exit_code(&self) -> ExitCode
        ensures value { exit_status result ≡ code_of self.now }
        ensures below { exit_status result ≤ 5 }
    {
        ExitCode::from(self.code())
    }

    fn code(&self) -> u8
        ensures value { result ≡ code_of self.now }
        ensures below { result ≤ 5 }
    {
        match self {
            End::Done => 0,
            End::SourceFault => 1,
            End::BadWords => 2,
            End::BadInput(_) => 3,
            End::SinkFault => 4,
            End::NoMemory => 5,
        }
    }
}

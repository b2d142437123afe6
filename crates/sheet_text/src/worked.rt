// A sheet worked by hand.
ghost use Rattle.sheet_text.specs.WorkedSheet.{SampleSheet};

/// The sheet of the sample election is the one defined, to the byte.
pub fn worked_sheet()
    ensures { SampleSheet }
{}

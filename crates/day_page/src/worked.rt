// A day worked by hand.
ghost use Rattle.day_page.specs.Worked.{WorkedDay, WorkedJson, WorkedTable};

/// A day that was worked by hand as a text, as a table and as JSON, byte by byte.
pub fn worked_day_page()
    ensures text { WorkedDay }
    ensures table { WorkedTable }
    ensures json { WorkedJson }
{}

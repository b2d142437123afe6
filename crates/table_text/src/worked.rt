// Tables worked by hand.
ghost use Rattle.table_text.specs.Worked.{Refusals, Table, Separators};

/// Tables worked by hand are read as they are defined to be, and texts that are none have their faults.
pub fn worked_records()
    ensures refusals { Refusals }
    ensures table { Table }
{}

/// Heads worked by hand have the separators that are defined.
pub fn worked_separators()
    ensures { Separators }
{}

// What holds of every comma-separated text.
ghost use Rattle.csv_text.specs.Laws.{RecordsReadBack};

/// Records that have fields are read back as they are. The call does nothing.
pub fn csv_laws()
    ensures { RecordsReadBack }
{}

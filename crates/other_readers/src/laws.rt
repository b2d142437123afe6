// How other readers read a table.
ghost use Rattle.other_readers.specs.Laws.{CsvReadsAlike, CsvTextReadsAlike, WrittenIsSpelled};

/// What is spelled as records is read as these by others, and what `csv_text` writes is spelled as what was written. The
/// call does nothing.
pub fn others_read_alike()
    ensures csv { CsvReadsAlike }
    ensures csv_text { CsvTextReadsAlike }
    ensures written { WrittenIsSpelled }
{}

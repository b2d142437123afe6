// What holds of every table as text. Each law is the contract of a function with nothing to do.
ghost use Rattle.table_text.specs.Laws.{ReadIsSpelled, SpelledIsRead, OneTable, TableOrFault, NotBoth, HeadsTellSeparators};

/// A text is that of one list of records, which is what is read of it; or it has a fault.
pub fn one_table()
    ensures read { ReadIsSpelled }
    ensures spelled { SpelledIsRead }
    ensures one { OneTable }
    ensures or_fault { TableOrFault }
    ensures not_both { NotBoth }
{}

/// The byte that a head tells is no quote and ends no line.
pub fn heads_tell_separators()
    ensures { HeadsTellSeparators }
{}

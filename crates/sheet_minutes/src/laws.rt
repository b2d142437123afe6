// What holds of every table, and of every text.
ghost use Rattle.sheet_minutes.specs.Laws.{RoundsStandOnce, TablesFit, TextsAreTame};

/// Each round is in one block, in order, and no line of a block is longer than 80 columns. The call does
/// nothing.
pub fn tables_fit()
    ensures rounds { RoundsStandOnce }
    ensures columns { TablesFit }
{}

/// No control character is written of a title, a name or a sentence, whatever their bytes are. The call does
/// nothing.
pub fn texts_are_tame()
    ensures { TextsAreTame }
{}

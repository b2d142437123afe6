// Files worked by hand.
ghost use Rattle.blt_writer.specs.Worked.{WorkedTexts};

/// The texts of files that were worked by hand.
pub fn worked_texts()
    ensures { WorkedTexts }
{}

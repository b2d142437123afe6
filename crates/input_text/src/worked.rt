// Texts worked by hand.
ghost use Rattle.input_text.specs.Worked.{Cuts};
ghost use Rattle.input_text.specs.WorkedBytes.{AtTheStart, AtTheStartWithoutWords, BehindANumber, BehindAString, InAString, InAComment, Marks};

/// A text worked by hand has the tokens that are defined.
pub fn worked_texts()
    ensures { Cuts }
{}

/// Each of the 256 bytes makes of a text what is worked by hand, and so does a byte order mark.
pub fn worked_bytes()
    ensures start { AtTheStart }
    ensures start_without_words { AtTheStartWithoutWords }
    ensures behind_a_number { BehindANumber }
    ensures behind_a_string { BehindAString }
    ensures in_a_string { InAString }
    ensures in_a_comment { InAComment }
    ensures marks { Marks }
{}

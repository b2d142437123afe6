// Strings and texts of JSON, and the part of a promise, worked by hand.
ghost use Rattle.sheet_page.specs.Worked.{WorkedPart, WorkedStrings, WorkedTexts};

/// How some texts are written within the quotes of a string of JSON. The call does nothing.
pub fn worked_strings()
    ensures { WorkedStrings }
{}

/// A text of JSON with what it says, and two that say nothing. The call does nothing.
pub fn worked_texts()
    ensures { WorkedTexts }
{}

/// The part of a page that has what a count promises, to the byte. The call does nothing.
pub fn worked_part()
    ensures { WorkedPart }
{}

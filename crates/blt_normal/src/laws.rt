// What holds of canonical texts.
ghost use Rattle.blt_normal.specs.Laws.{TextsStay};

use blt_writer::texts_are_read;

/// What is owed for a canonical text is that text.
pub fn texts_stay()
    ensures { TextsStay }
{
    texts_are_read();
}

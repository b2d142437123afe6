// A day worked by hand.
ghost use Rattle.day_text.specs.Worked.{WorkedEnd, WorkedText};

/// The text of a day worked by hand is that of its calls and sheets, and its batches end as they were worked out.
pub fn worked_day()
    ensures text { WorkedText }
    ensures end { WorkedEnd }
{}

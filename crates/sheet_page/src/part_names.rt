// What the names of the parts of a sheet begin with.
ghost use Rattle.std.specs.Prelude.{◌≡◌, ◌≤◌, length};
ghost use Rattle.sheet_page.specs.declared.part_names.PartNames.TheVariants.{Alone, OfFreeze};
ghost use Rattle.sheet_page.specs.Links.{names_front};

use line_text::Line;

/// What the names of the parts of a sheet begin with, so that no two parts of a page have one name.
#[derive(Clone, Copy, Debug, PartialEq, Eq)]
pub enum PartNames {
    /// The sheet has a page of its own.
    Alone,
    /// It is among the sheets of a day, and its freeze is in this line of the text of the day.
    OfFreeze(u64),
}

impl PartNames {
    /// The front of a name.
    pub(crate) fn front(self) -> Line
        ensures front { result ≡ names_front self }
        ensures short { length result ≤ 60 }
    {
        match self {
            PartNames::Alone => letter_alone(),
            PartNames::OfFreeze(freeze) => with_freeze(freeze),
        }
    }
}

#[tactic(auto, using(line_text::proofs::Lengths::lengths))]
fn letter_alone() -> Line
    ensures front { result ≡ names_front Alone }
    ensures short { length result ≤ 60 }
{
    let mut line = Line::new();
    line.push_bytes(b"i");
    line
}

#[tactic(auto, using(crate::proofs::Rooms::rooms))]
fn with_freeze(freeze: u64) -> Line
    ensures front { result ≡ names_front (OfFreeze freeze) }
    ensures short { length result ≤ 60 }
{
    let mut line = Line::new();
    line.push_bytes(b"f");
    line.push_count(freeze);
    line.push_bytes(b"i");
    line
}

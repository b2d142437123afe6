// The options, and the layouts that have them.
ghost use Rattle.std.specs.Prelude.{◌≡◌, ◌≢◌, ◌↔◌, IsTrue, IfNone, IfSome, nat_eq};
ghost use Rattle.import_words.specs.Options.{flag_of, is_column, is_of, place_of, same_option};
ghost use Rattle.import_words.specs.declared.import_option.ImportOption.{ImportOption};

use crate::Layout;

/// An option of the words.
#[derive(Clone, Copy)]
pub(crate) enum ImportOption {
    Layout,
    Seats,
    Title,
    Withdrawn,
    As,
    Equal,
    Skipped,
    Empty,
    Separator,
    Weight,
    Ignore,
    Blank,
    Names,
    Ranks,
    Candidate,
    Over,
    Repeated,
    Head,
    Columns,
}

impl ImportOption {
    /// The option that a word names in full.
    pub(crate) fn from_flag(word: &str) -> Option<ImportOption>
        ensures named { IfSome result (λ option. word.now ≡ flag_of option) }
        ensures other { IfNone result ((option : ImportOption) → word.now ≢ flag_of option) }
    {
        match word {
            "--layout" => Some(ImportOption::Layout),
            "--seats" => Some(ImportOption::Seats),
            "--title" => Some(ImportOption::Title),
            "--withdrawn" => Some(ImportOption::Withdrawn),
            "--as" => Some(ImportOption::As),
            "--equal" => Some(ImportOption::Equal),
            "--skipped" => Some(ImportOption::Skipped),
            "--empty" => Some(ImportOption::Empty),
            "--separator" => Some(ImportOption::Separator),
            "--weight" => Some(ImportOption::Weight),
            "--ignore" => Some(ImportOption::Ignore),
            "--blank" => Some(ImportOption::Blank),
            "--names" => Some(ImportOption::Names),
            "--ranks" => Some(ImportOption::Ranks),
            "--candidate" => Some(ImportOption::Candidate),
            "--over" => Some(ImportOption::Over),
            "--repeated" => Some(ImportOption::Repeated),
            "--head" => Some(ImportOption::Head),
            "--columns" => Some(ImportOption::Columns),
            _ => None,
        }
    }

    /// The place of an option among all.
    fn place(self) -> u8
        ensures { result ≡ place_of self }
    {
        self as u8
    }

    pub(crate) fn is_same(self, other: ImportOption) -> bool
        ensures { result ≡ same_option self other }
    {
        self.place() == other.place()
    }

    /// Whether the value is the head of one column.
    pub(crate) fn is_column(self) -> bool
        ensures { result ≡ is_column self }
    {
        matches!(self, ImportOption::Weight | ImportOption::Ignore)
    }

    /// Whether words for a layout may have the option.
    pub(crate) fn is_of(self, layout: Layout) -> bool
        ensures { result ≡ is_of layout self }
    {
        match self {
            ImportOption::Layout
            | ImportOption::Seats
            | ImportOption::Title
            | ImportOption::Withdrawn
            | ImportOption::As
            | ImportOption::Equal => true,
            ImportOption::Skipped
            | ImportOption::Empty
            | ImportOption::Separator
            | ImportOption::Weight
            | ImportOption::Ignore
            | ImportOption::Blank
            | ImportOption::Head => !matches!(layout, Layout::Preflib),
            ImportOption::Names | ImportOption::Ranks => matches!(layout, Layout::Ranks),
            ImportOption::Columns => matches!(layout, Layout::Choices),
            ImportOption::Candidate | ImportOption::Over | ImportOption::Repeated => {
                matches!(layout, Layout::Choices | Layout::List)
            }
        }
    }
}

// The tools that cases call.

/// A tool that cases call.
#[derive(Clone, Copy)]
pub(crate) enum Tool {
    Draw,
    Normal,
    Look,
    Import,
    Warren,
    Check,
    Audit,
    Ballots,
    Page,
    Promise,
    Tally,
    Meek,
}

impl Tool {
    /// The tool of this name.
    pub(crate) fn named(name: &str) -> Option<Tool> {
        let tool = match name {
            "draw" => Tool::Draw,
            "normal" => Tool::Normal,
            "look" => Tool::Look,
            "import" => Tool::Import,
            "warren" => Tool::Warren,
            "check" => Tool::Check,
            "audit" => Tool::Audit,
            "ballots" => Tool::Ballots,
            "page" => Tool::Page,
            "promise" => Tool::Promise,
            "tally" => Tool::Tally,
            "meek" => Tool::Meek,
            _ => return None,
        };
        Some(tool)
    }

    /// Whether it has a call over two inputs besides.
    pub(crate) fn takes_two(self) -> bool {
        match self {
            Tool::Check | Tool::Audit | Tool::Ballots => true,
            _ => false,
        }
    }
}

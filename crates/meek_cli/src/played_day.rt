// A day whose calls are answered.
use call_register::History;
use day_lines::Terms;
use team_run::Versions;

/// A day whose calls are all answered: how its sheets are counted, the history, and the versions of its
/// freezes by rising place.
#[derive(Drop)]
pub(crate) struct PlayedDay {
    pub(crate) terms: Terms,
    pub(crate) history: History,
    pub(crate) versions: Versions,
}

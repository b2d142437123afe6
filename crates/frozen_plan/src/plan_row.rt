// A row of a plan.
ghost use Rattle.std.specs.Prelude.{◌≡◌, IfOk};

use crate::NoMemory;

/// A node of a trie: the beginning of some rankings. Its candidate is at place `depth` of them.
#[derive(Clone, Copy, Debug, PartialEq, Eq)]
pub struct PlanRow {
    /// How many candidates the beginning has.
    pub depth: u16,
    /// The last of them.
    pub candidate: u16,
    /// How many ballots begin so.
    pub ballots: u32,
    /// How many rows the node and those below it take.
    pub skip: u32,
}

/// What a row skips that takes so many rows with those below it. More than 4,294,967,295 are as good
/// as no memory for them.
pub(crate) fn skip_of(rows: usize) -> Result<u32, NoMemory>
    ensures { IfOk result (λ skip. skip ≡ rows) }
{
    match u32::try_from(rows) {
        Ok(skip) => Ok(skip),
        Err(_) => Err(NoMemory),
    }
}

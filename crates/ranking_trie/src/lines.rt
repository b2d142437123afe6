// The ballots of a trie, in lines.
ghost use Rattle.std.specs.Prelude.{◌≡◌, ◌+◌, ◌≤◌, ◌++◌, [], ◌∷◌, All, length, map, IfOk};
ghost use Rattle.plain_ballots.specs.declared.limits.TheConstants.{MOST_BALLOTS};
ghost use Rattle.plain_ballots.specs.Ballots.{ballot_count};
ghost use Rattle.plain_ballots.specs.Ranking.{IsRanking};
ghost use Rattle.ranking_trie.specs.Bag.{bag, below};
ghost use Rattle.ranking_trie.specs.Siblings.{forest_of};
ghost use Rattle.ranking_trie.specs.Lines.{behind, line_of, lines_of, node_lines};

use crate::{NoMemory, Siblings};
use plain_ballots::{BallotLine, Ballots, LineStop, Ranking};
use std::alloc::Global;

/// Adds the lines of a forest below a node, whose ballots begin with `ranks`.
#[cycle(lines)]
pub(crate) fn push_lines(
    alloc: Global,
    forest: Siblings,
    ranks: &mut Vec<u32>,
    ballots: &mut Ballots,
) -> Result<(), NoMemory>
    requires rankings { All (λ r. IsRanking ballots.old.candidates (ranks.old.items ++ r))
        (bag (forest_of forest)) }
    requires few { ballot_count ballots.old.lines + length (bag (forest_of forest)) ≤ MOST_BALLOTS }
    ensures ranks { IfOk result (λ _. ranks.new.items ≡ ranks.old.items) }
    ensures lines { IfOk result (λ _. ballots.new ≡ record ballots.old {
      lines = ballots.old.lines ++ map (behind ranks.old.items) (lines_of (forest_of forest.entry));
    }) }
{
    let mut rest = forest;
    while let Some(node) = rest.first() {
        push_node(alloc, node.candidate, node.ends, node.inner, ranks, ballots)?;
        rest = node.next;
    }
    Ok(())
}

/// Adds the lines of a node and of those below it.
#[cycle(lines)]
fn push_node(
    alloc: Global,
    c: u16,
    ends: u32,
    inner: Siblings,
    ranks: &mut Vec<u32>,
    ballots: &mut Ballots,
) -> Result<(), NoMemory>
    requires rankings { All (λ r. IsRanking ballots.old.candidates (ranks.old.items ++ r))
        (below c ends (bag (forest_of inner))) }
    requires few { ballot_count ballots.old.lines + length (below c ends (bag (forest_of inner)))
        ≤ MOST_BALLOTS }
    ensures ranks { IfOk result (λ _. ranks.new.items ≡ ranks.old.items) }
    ensures lines { IfOk result (λ _. ballots.new ≡ record ballots.old {
      lines = ballots.old.lines
          ++ map (behind ranks.old.items) (node_lines c ends (lines_of (forest_of inner.entry)));
    }) }
{
    ranks.push(c as u32)?;
    push_line(alloc, ends, ranks.as_slice(), ballots)?;
    push_lines(alloc, inner, ranks, ballots)?;
    ranks.pop();
    Ok(())
}

/// Adds a line of as many ballots, if there are any.
pub(crate) fn push_line(
    alloc: Global,
    count: u32,
    ranks: &[u32],
    ballots: &mut Ballots,
) -> Result<(), NoMemory>
    requires ranking { 1 ≤ count → IsRanking ballots.old.candidates ranks.now }
    requires few { ballot_count ballots.old.lines + count ≤ MOST_BALLOTS }
    ensures { IfOk result (λ _. ballots.new ≡ record ballots.old {
      lines = ballots.old.lines ++ line_of count ranks.now;
    }) }
{
    if count == 0 {
        return Ok(());
    }
    let ranking = Ranking::new(alloc, ranks)?;
    match ballots.push_line(BallotLine { count, ranking }) {
        Ok(()) => Ok(()),
        Err(LineStop::NoMemory(_)) => Err(NoMemory),
        Err(LineStop::TooMany(_)) => unreachable!(),
    }
}

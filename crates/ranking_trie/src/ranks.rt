// The room that ballots take.
ghost use Rattle.std.specs.Prelude.{◌≡◌};
ghost use Rattle.ranking_trie.specs.Lines.{rank_count};

use plain_ballots::Ballots;

/// The ranks of all lines together, which is the room that a trie needs to take them in.
pub fn ranks_of(ballots: &Ballots) -> usize
    ensures { result ≡ rank_count ballots.now.lines }
{
    // No line has more ranks than there are candidates, whose number has 32 bits.
    let _most = ballots.candidates();
    let mut ranks = 0;
    for line in ballots.lines() {
        ranks += line.ranking.ranks().len();
    }
    ranks
}

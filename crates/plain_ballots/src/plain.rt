// What lines of ballots stand for.
ghost use Rattle.std.specs.Prelude.{◌≡◌, ℕ, ◌*◌, List, ◌++◌, length, sum_by, IsPermutation};
ghost use Rattle.plain_ballots.specs.Ballots.{ballot_count, plain};
ghost use Rattle.plain_ballots.specs.declared.ballot_line.BallotLine.{BallotLine};

/// Lines of equal ballots stand for single ballots: they are as many, a sum over them may be taken
/// line by line, and their order doesn't matter. The call does nothing.
pub fn lines_stand_for_ballots()
    ensures count { (lines : List BallotLine) → length (plain lines) ≡ ballot_count lines }
    ensures joined { (xs ys : List BallotLine) → plain (xs ++ ys) ≡ plain xs ++ plain ys }
    ensures sums { (f : List ℕ → ℕ) (lines : List BallotLine) →
        sum_by f (plain lines) ≡ sum_by (λ line. line.count * f line.ranking) lines }
    ensures order { (xs ys : List BallotLine) → IsPermutation xs ys → IsPermutation (plain xs) (plain ys) }
{}

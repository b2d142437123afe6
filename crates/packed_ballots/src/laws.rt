// What packed lines and their fronts tell.
ghost use Rattle.std.specs.Prelude.{◌≡◌, ℕ, List};
ghost use Rattle.plain_ballots.specs.Ballots.{ballot_count, plain};
ghost use Rattle.packed_ballots.specs.declared.packed_line.PackedLine.{PackedLine};
ghost use Rattle.packed_ballots.specs.Fronts.{FrontsAreInOrder, FrontsTellEight, ShortFrontsTellAll};
ghost use Rattle.packed_ballots.specs.Packed.{line_count, lines_of, rests};

/// Packed lines stand for the ballots among their bytes, and are as many. The call does nothing.
pub fn packed_lines_stand_for_ballots()
    ensures ballots { (bytes : List ℕ) (lines : List PackedLine) → plain (lines_of bytes lines) ≡ rests bytes 0 lines }
    ensures count { (bytes : List ℕ) (lines : List PackedLine) → ballot_count (lines_of bytes lines) ≡ line_count lines }
{}

/// Fronts tell the first eight ranks, and a front whose last digit is 0 the whole ranking; and they stand in
/// the order of those ranks. The call does nothing.
pub fn fronts_tell_rankings()
    ensures eight { FrontsTellEight }
    ensures all { ShortFrontsTellAll }
    ensures order { FrontsAreInOrder }
{}

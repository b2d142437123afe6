// Which iterations a round has.
ghost use Rattle.std.specs.Prelude.{◌≡◌, ℕ, ◌<◌, ◌≤◌, true, false, length};
ghost use Rattle.sheet_page.specs.Stretches.{is_of_round};

use meek_rule::Row;

/// The place of the first iteration of the round that ends at a place.
pub(crate) fn first_of<const P: usize>(rows: &[Row<P>], last: usize) -> usize
    requires { last < length rows.now }
    ensures within { result ≤ last }
    ensures of_it { (i : ℕ) → result ≤ i → i ≤ last → is_of_round rows.now last i ≡ true }
    ensures before { (i : ℕ) → i < result → is_of_round rows.now last i ≡ false }
{
    let end = &rows[last];
    for i in (0..last).rev() {
        let row = &rows[i];
        if row.round != end.round {
            return i + 1;
        }
    }
    0
}

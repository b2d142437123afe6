// Shares of a list.
ghost use Rattle.std.specs.Prelude.{◌≡◌, ◌≤◌};
ghost use Rattle.shared_work.specs.Shares.{share};

/// The place, from 0, at which share `k` of a list of `len` begins, of so many shares. Share `k` ends where share
/// `k + 1` begins, so that none of the list is left out: share `count`, which nobody has, begins at its end.
pub fn share(len: usize, k: usize, count: usize) -> usize
    requires { (1 ≤ count) × (k ≤ count) }
    ensures share { result ≡ share len k count }
    ensures within { result ≤ len }
{
    (len as u128 * k as u128 / count as u128) as usize
}

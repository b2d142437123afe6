// Where a ranking keeps its ranks.
ghost use Rattle.std.specs.Prelude.{◌≡◌, ◌≤◌, ℕ, length, take, IfOk};
ghost use Rattle.plain_ballots.specs.Ranks.{kept, IsWithin};

use crate::NoMemory;
use std::alloc::Global;

/// As many ranks lie in the value itself.
pub(crate) const FEW: usize = 7;

/// Ranks, few of which lie in the value itself, as those of most ballots do, and take no memory of their
/// own. The numbers after the first `len` of the few mean nothing. The few stand in the variant itself
/// and not in a type of their own, so that its tag and `len` take no more room together than one rank.
#[derive(Drop)]
pub(crate) enum Ranks {
    Few { len: u8, ranks: [u32; FEW] },
    Many(Vec<u32>),
}

impl Ranks {
    /// The first `len` of these numbers. It takes memory once, where they are many.
    #[inline(always)]
    pub(crate) fn new(alloc: Global, ranks: &[u32], len: usize) -> Result<Ranks, NoMemory>
        requires { len ≤ length ranks.now }
        ensures kept { IfOk result (λ all. kept all ≡ take len ranks.now) }
        ensures within { IfOk result IsWithin }
    {
        if len > FEW {
            return match Vec::from_slice(alloc, &ranks[..len]) {
                Ok(many) => Ok(Ranks::Many(many)),
                Err(_) => Err(NoMemory),
            };
        }
        Ok(Ranks::Few {
            len: len as u8,
            ranks: front(ranks),
        })
    }

    #[inline(always)]
    pub(crate) fn as_slice(&self) -> &[u32]
        requires { IsWithin self.now }
        ensures { result.now ≡ kept self.now }
    {
        match self {
            Ranks::Few { len, ranks } => &ranks[..*len as usize],
            Ranks::Many(ranks) => ranks.as_slice(),
        }
    }
}

// The first numbers, as many as there is room for in the value, and 0 where there are fewer. Where there
// are more than enough, the copy is of a length that the compiler knows.
#[inline(always)]
fn front(ranks: &[u32]) -> [u32; FEW]
    ensures { (len : ℕ) → len ≤ 7 → len ≤ length ranks.now → take len result ≡ take len ranks.now }
{
    let mut few = [0; FEW];
    if ranks.len() < FEW {
        few[..ranks.len()].copy_from_slice(ranks);
    } else {
        few.copy_from_slice(&ranks[..FEW]);
    }
    few
}

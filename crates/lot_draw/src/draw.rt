// The draw.
ghost use Rattle.std.specs.Prelude.{◌≡◌, ℕ, ◌%◌, ◌<◌, ◌≤◌, ◌++◌, ◌∷◌, All, IfOk, decimal};
ghost use Rattle.std.specs.List.{range_with_len};
ghost use Rattle.plain_ballots.specs.declared.limits.TheConstants.{MOST_CANDIDATES};
ghost use Rattle.sha2.specs.Sha256.{sha256};
ghost use Rattle.lot_order.specs.Lots.{IsOrder};
ghost use Rattle.lot_draw.specs.Draw.{IsDraw, big_endian, drawn_place};

use itoa::Buffer;
use lot_order::NoMemory;
use sha2::{Digest, Sha256};
use std::alloc::{AllocError, Global};

/// Draws an order of the candidates from 1 to `candidates`. A roll has at most 250 of them.
pub fn draw_lots(alloc: Global, seed: &[u8], candidates: u32) -> Result<Vec<u32>, NoMemory>
    requires few { candidates ≤ MOST_CANDIDATES }
    ensures drawn { IfOk result (λ order. IsDraw seed.now candidates order.items) }
    ensures order { IfOk result (λ order. IsOrder order.items) }
{
    match draw(alloc, seed, candidates) {
        Ok(order) => Ok(order),
        Err(_) => Err(NoMemory),
    }
}

fn draw(alloc: Global, seed: &[u8], candidates: u32) -> Result<Vec<u32>, AllocError>
    requires { candidates ≤ MOST_CANDIDATES }
    ensures { IfOk result (λ order. IsDraw seed.now candidates order.items) }
{
    let mut left = everybody(alloc, candidates)?;
    let mut order = Vec::with_capacity(alloc, candidates as usize)?;
    for drawn in 0..candidates {
        let place = place_among(seed, candidates - drawn);
        let candidate = left.remove(place as usize);
        order.push(candidate)?;
    }
    Ok(order)
}

fn everybody(alloc: Global, candidates: u32) -> Result<Vec<u32>, AllocError>
    requires { candidates ≤ MOST_CANDIDATES }
    ensures { IfOk result (λ all. all.items ≡ range_with_len 1 candidates) }
{
    let mut all = Vec::with_capacity(alloc, candidates as usize)?;
    for before in 0..candidates {
        all.push(before + 1)?;
    }
    Ok(all)
}

/// The place, from 0, at which the next of so many candidates is drawn.
fn place_among(seed: &[u8], candidates: u32) -> u32
    requires some { 0 < candidates }
    requires few { candidates ≤ MOST_CANDIDATES }
    ensures place { result ≡ drawn_place seed.now candidates }
    ensures below { result < candidates }
{
    remainder(&digest_of(seed, candidates), candidates)
}

fn digest_of(seed: &[u8], candidates: u32) -> [u8; 32]
    ensures { result ≡ sha256 (seed.now ++ 44 ∷ decimal candidates) }
{
    let mut number = Buffer::new();
    let mut hasher = Sha256::new();
    hasher.update(seed);
    hasher.update(b",");
    hasher.update(number.format(candidates));
    hasher.finalize()
}

fn remainder(bytes: &[u8], modulus: u32) -> u32
    requires some { 0 < modulus }
    requires few { modulus ≤ MOST_CANDIDATES }
    ensures value { result ≡ big_endian bytes.now % modulus }
    ensures below { result < modulus }
{
    let mut rest = 0;
    for byte in bytes {
        rest = (rest * 256 + u32::from(*byte)) % modulus;
    }
    rest
}

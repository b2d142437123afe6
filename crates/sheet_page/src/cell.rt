// A value as text.
ghost use Rattle.std.specs.Prelude.{◌≡◌, ◌∷◌, ◌^◌, ◌+◌, ◌<◌, ◌≤◌, decimal, drop, length};
ghost use Rattle.fixed_place.specs.Rounding.{scale};
ghost use Rattle.fixed_place.specs.Text.{last_digits, text_of};

use fixed_place::{Amount, scale_of};
use line_text::Line;

/// A value as text: bytes as they are, a whole number, or an amount of votes to the last digit.
#[derive(Drop)]
pub enum Cell<'a, const P: usize> {
    Bytes(&'a [u8]),
    Count(u64),
    Amount(Amount<P>),
}

#[tactic(auto, using(line_text::proofs::Lengths::lengths))]
pub(crate) fn count_text(n: u64) -> Line
    ensures { result ≡ decimal n }
{
    let mut line = Line::new();
    line.push_count(n);
    line
}

#[tactic(auto, using(line_text::proofs::Lengths::lengths))]
pub(crate) fn amount_text<const P: usize>(a: Amount<P>) -> Line
    ensures text { result ≡ text_of P a.entry }
    ensures places { (6 ≤ P) × (P ≤ 9) }
{
    let _units = a.units();
    let mut line = Line::new();
    line.push_amount(a);
    line
}

/// So many units as an amount of votes; they may be more than any vote.
#[tactic(auto, using(line_text::proofs::Lengths::lengths), unfolding(fixed_place::specs::Text::text_of))]
pub(crate) fn units_text<const P: usize>(units: u128) -> Line
    requires places { (6 ≤ P) × (P ≤ 9) }
    requires bound { units < 10 ^ (P + 18) }
    ensures { result ≡ text_of P units }
{
    let vote = u128::from(scale_of::<P>());
    let digits = digits_text::<P>((units % vote) as u64);
    let mut line = Line::new();
    line.push_count((units / vote) as u64);
    line.push_bytes(digits.bytes());
    line
}

/// The point and the digits of a part of a vote.
#[tactic(auto, using(line_text::proofs::Lengths::lengths))]
fn digits_text<const P: usize>(units: u64) -> Line
    requires places { (6 ≤ P) × (P ≤ 9) }
    requires part { units < scale P }
    ensures digits { result ≡ 46 ∷ last_digits P units }
    ensures few { length result ≤ 20 }
{
    let text = amount_text(Amount::<P>::from_units(units));
    let mut line = Line::new();
    line.push_bytes(behind_first(text.bytes()));
    line
}

fn behind_first(text: &[u8]) -> &[u8]
    requires { 0 < length text.now }
    ensures { result.now ≡ drop 1 text.now }
{
    &text[1..]
}

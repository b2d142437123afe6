// A text under way.
ghost use Rattle.std.specs.Prelude.{◌≡◌, ◌^◌, ◌<◌, [], ◌∷◌, ◌++◌, decimal, drop, length, OnOk};
ghost use Rattle.fixed_place.specs.Text.{last_digits, text_of};

use fixed_place::Amount;
use itoa::Buffer;
use line_text::Line;
use std::alloc::{AllocError, Global};
use std::marker::Model;

const VOTE: u128 = 1_000_000_000;

/// A text under way, in memory. A push that is refused for want of it leaves no text to rely on.
#[derive(Drop)]
pub(crate) struct Text {
    bytes: Vec<u8>,
}

impl Model for Text {
    ghost use Rattle.std.specs.Prelude.{List, ℕ};

    ghost Value = { List ℕ };

    ghost view = { λ text. text.bytes.items };
}

impl Text {
    /// No text. The allocator serves each later push.
    pub(crate) fn new(alloc: Global) -> Text
        ensures { result ≡ [] }
    {
        Text {
            bytes: Vec::new(alloc),
        }
    }

    pub(crate) fn bytes(&self) -> &[u8]
        ensures { result.now ≡ self.now }
    {
        self.bytes.as_slice()
    }

    pub(crate) fn push_bytes(&mut self, bytes: &[u8]) -> Result<(), AllocError>
        ensures { OnOk result (self.new ≡ self.old ++ bytes.now) }
    {
        self.bytes.extend_from_slice(bytes)
    }

    /// Appends a whole number without leading zeros.
    pub(crate) fn push_count(&mut self, n: u64) -> Result<(), AllocError>
        ensures { OnOk result (self.new ≡ self.old ++ decimal n) }
    {
        let mut buffer = Buffer::new();
        self.push_bytes(buffer.format(n).as_bytes())
    }

    /// Appends so many units as an amount of votes, at nine places; they may be more than any vote.
    #[tactic(auto, unfolding(fixed_place::specs::Text::text_of))]
    pub(crate) fn push_units(&mut self, units: u128) -> Result<(), AllocError>
        requires { units < 10 ^ 27 }
        ensures { OnOk result (self.new ≡ self.old ++ text_of 9 units) }
    {
        self.push_count((units / VOTE) as u64)?;
        self.push_part((units % VOTE) as u64)
    }

    /// Appends the point and the digits of a part of a vote.
    #[tactic(auto, using(line_text::proofs::Lengths::lengths))]
    fn push_part(&mut self, units: u64) -> Result<(), AllocError>
        requires { units < 10 ^ 9 }
        ensures { OnOk result (self.new ≡ self.old ++ 46 ∷ last_digits 9 units) }
    {
        let mut line = Line::new();
        line.push_amount(Amount::<9>::from_units(units));
        self.push_bytes(behind_first(line.bytes()))
    }
}

fn behind_first(text: &[u8]) -> &[u8]
    requires { 0 < length text.now }
    ensures { result.now ≡ drop 1 text.now }
{
    &text[1..]
}

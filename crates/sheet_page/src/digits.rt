// The text of an amount in two parts.
ghost use Rattle.std.specs.Prelude.{◌≡◌, ◌≤◌};
ghost use Rattle.sheet_page.specs.RoundTable.{main_digits, other_digits};

/// The text of an amount up to the second digit after the point.
pub(crate) fn main_digits<const P: usize>(text: &[u8]) -> &[u8]
    requires places { 2 ≤ P }
    ensures { result.now ≡ main_digits P text.now }
{
    let end = text.len().saturating_sub(P - 2);
    &text[..end]
}

/// The digits of the text of an amount after these.
pub(crate) fn other_digits<const P: usize>(text: &[u8]) -> &[u8]
    requires places { 2 ≤ P }
    ensures { result.now ≡ other_digits P text.now }
{
    let start = text.len().saturating_sub(P - 2);
    &text[start..]
}

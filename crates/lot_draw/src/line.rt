// The line of an order.
ghost use Rattle.std.specs.Prelude.{◌≡◌, ◌≤◌, ◌+◌, [], ◌++◌, length, All};
ghost use Rattle.plain_ballots.specs.declared.limits.TheConstants.{MOST_CANDIDATES};
ghost use Rattle.lot_draw.specs.DrawnLine.{behind, drawn_line};

use line_text::Line;

/// Writes the line of an order into an empty line. An order has at most 250 candidates.
pub fn push_drawn(line: &mut Line, order: &[u32])
    requires empty { line.old ≡ [] }
    requires few { length order.now ≤ MOST_CANDIDATES }
    requires numbers { All (λ c. c ≤ MOST_CANDIDATES) order.now }
    ensures { line.new ≡ drawn_line order.now }
{
    for (i, candidate) in order.iter().enumerate() {
        push_behind(line, i, *candidate);
    }
    line.push_bytes(b"\n");
}

/// Appends a candidate after so many others.
#[tactic(auto, using(crate::proofs::Joined::rooms))]
fn push_behind(line: &mut Line, others: usize, candidate: u32)
    requires number { candidate ≤ MOST_CANDIDATES }
    requires room { length line.old + 4 ≤ 1400 }
    ensures text { line.new ≡ line.old ++ behind others candidate }
    ensures short { length line.new ≤ length line.old + 4 }
{
    if others == 0 {
        line.push_count(candidate as u64);
        return;
    }
    line.push_bytes(b",");
    line.push_count(candidate as u64);
}

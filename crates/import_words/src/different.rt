//! Labels that are different.
ghost use Rattle.std.specs.Prelude.{◌≡◌, ◌↔◌, IsTrue};
ghost use Rattle.std.specs.List.{Contains};
ghost use Rattle.import_words.specs.Labels.{AreDifferent};

use crate::Label;

/// Whether a label is one of some.
pub(crate) fn stands_in(labels: &[Label], label: &Label) -> bool
    ensures { IsTrue result ↔ Contains labels.now label.now }
{
    for other in labels {
        if other.bytes() == label.bytes() {
            return true;
        }
    }
    false
}

/// Whether no two labels are the same.
pub(crate) fn are_different(labels: &[Label]) -> bool
    ensures { IsTrue result ↔ AreDifferent labels.now }
{
    for (at, label) in labels.iter().enumerate() {
        if stands_in(&labels[..at], label) {
            return false;
        }
    }
    true
}

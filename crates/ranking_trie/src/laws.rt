// One bag has one form.
ghost use Rattle.std.specs.Prelude.{◌≡◌, ℕ, List, ◌++◌, IsPermutation};
ghost use Rattle.ranking_trie.specs.Bag.{bag, root_bag, IsRising, HaveSameForm};
ghost use Rattle.ranking_trie.specs.BallotBag.{AreInOrder};
ghost use Rattle.ranking_trie.specs.Forest.{Forest};

/// A bag of ballots has one order and one form: the ballots of a trie are in order, two lists of
/// the same ballots in order are equal, also where they are what is left when the same ballots are
/// taken out, and equal ballots have nodes of the same form. So a trie to which ballots were added
/// and from which they were removed again is as before. The call does nothing.
pub fn one_bag_has_one_form()
    ensures order { (ends : ℕ) (f : Forest) → IsRising 0 f → AreInOrder (root_bag ends f) }
    ensures unique { (xs ys : List (List ℕ)) → AreInOrder xs → AreInOrder ys →
        IsPermutation xs ys → xs ≡ ys }
    ensures undone { (xs ys both : List (List ℕ)) → AreInOrder xs → AreInOrder ys →
        IsPermutation (both ++ xs) (both ++ ys) → xs ≡ ys }
    ensures form { (f g : Forest) → IsRising 0 f → IsRising 0 g →
        bag f ≡ bag g → HaveSameForm f g }
{}

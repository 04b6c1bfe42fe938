//! The laws of flattening. The functions here state them, and do nothing.

ghost use Rattle.std.specs.Prelude.{ℕ, Bool, List, IsTrue};
ghost use Rattle.cc_collapse.specs.Law.{FlatteningKeepsSpelling, FlatteningLeavesNoPaths};

/// A flattened program has no flat paths.
pub fn flattening_leaves_no_paths()
    ensures { FlatteningLeavesNoPaths }
{}

/// Labels that are identifiers and properties that are names stay so, by whichever tests of what is an
/// identifier and what is a name.
pub fn flattening_keeps_spelling()
    ensures { (is_identifier : List ℕ → Bool) → (is_name : List ℕ → Bool) → FlatteningKeepsSpelling (λ t. IsTrue (is_identifier t)) (λ t. IsTrue (is_name t)) }
{}

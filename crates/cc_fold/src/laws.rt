//! The laws of folding. The functions here state them, and do nothing.

ghost use Rattle.std.specs.Prelude.{ℕ, Bool, List, IsTrue};
ghost use Rattle.cc_fold.specs.Law.{FoldingKeeps, FoldingKeepsSpelling, FoldingKeepsWellMade};
ghost use Rattle.cc_fold.specs.Keeps.{KeptScopeStays};

/// A well made program without flat paths does the same whichever of its scopes are folded by its
/// plan.
pub fn folding_keeps()
    ensures { FoldingKeeps }
{}

/// And it stays well made, and without flat paths.
pub fn folding_keeps_well_made()
    ensures { FoldingKeepsWellMade }
{}

/// Labels that are identifiers and properties that are names stay so whichever scopes of a program are
/// folded, by whichever tests of what is an identifier and what is a name.
pub fn folding_keeps_spelling()
    ensures { (is_identifier : List ℕ → Bool) → (is_name : List ℕ → Bool) → FoldingKeepsSpelling (λ t. IsTrue (is_identifier t)) (λ t. IsTrue (is_name t)) }
{}

/// A scope each of whose nodes stays is folded to itself, by whichever plan.
pub fn kept_scope_stays()
    ensures { KeptScopeStays }
{}

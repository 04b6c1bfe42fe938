//! Laws that join reading, naming and spelling to the meaning. The functions do nothing.

ghost use Rattle.std.specs.Prelude.{◌≡◌, ℕ, List, Some, length};
ghost use Rattle.cc_meaning.specs.WellMade.{WellMade};
ghost use Rattle.cc_driver.specs.Form.{IsExterns, IsSource};
ghost use Rattle.cc_driver.specs.Naming.{IsNaming};
ghost use Rattle.cc_driver.specs.Source.{program_of};
ghost use Rattle.cc_driver.specs.Spelling.{spell_chunk, text_of};
ghost use Rattle.cc_driver.specs.declared.form.Statement.{Statement};
ghost use Rattle.cc_driver.specs.declared.spelling.Piece.{Piece};
ghost use Rattle.cc_driver.specs.NamingLaw.{NamingLaw};
ghost use Rattle.cc_driver.specs.ReadsBack.{ReadsBack};

/// The names of a source's globals keep the law of namings.
pub fn names_keep_the_law()
    ensures { (externs : List (List ℕ)) (size : ℕ) (statements : List Statement) (pieces : List Piece) (names : List (List ℕ))
        → IsNaming (program_of externs size statements) pieces names → NamingLaw (program_of externs size statements) pieces names }
{}

/// The text of a source of the form under its names reads back.
pub fn text_reads_back()
    ensures { (file : List ℕ) (externs : List (List ℕ)) (source : List ℕ) (statements : List Statement) (size : ℕ) (pieces : List Piece) (names : List (List ℕ))
        → IsExterns file externs → IsSource externs source statements → spell_chunk (program_of externs size statements) 0 ≡ Some pieces
        → IsNaming (program_of externs size statements) pieces names → ReadsBack externs size statements (text_of names pieces) }
{}

/// The program of a source of the form is well made.
pub fn source_is_well_made()
    ensures { (file : List ℕ) (externs : List (List ℕ)) (source : List ℕ) (statements : List Statement)
        → IsExterns file externs → IsSource externs source statements → WellMade (program_of externs (length source) statements) }
{}

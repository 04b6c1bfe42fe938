// Which names the globals of a program get.
ghost use Rattle.std.specs.Prelude.{◌≡◌, ℕ, ◌<◌, ◌^◌, ◌++◌, Bool, List, All, Some, false, length, map, slice_get, IfOk};
ghost use Rattle.cc_ast.specs.Syntax as S;
ghost use Rattle.cc_driver.specs.declared.spelling.Piece.{Piece};
ghost use Rattle.std.specs.Str.{IsAscii};
ghost use Rattle.std.specs.List.Sorted.{IsPermutation};
ghost use Rattle.cc_ast.specs.declared.tables.GlobalInfo as tables;
ghost use Rattle.cc_driver.specs.Names.{is_in, reserved_words, strict_words, special_names};
ghost use Rattle.cc_driver.specs.Naming.{IsNaming, IsRanked, Fresh, is_passed, other_names, own_globals};
ghost use Rattle.cc_driver.specs.NamingSteps.{global_of, given_to, given_name};

mod count;
mod given;
pub mod number;
mod passed;
mod rank;

use crate::naming::count::count_globals;
use crate::naming::given::{Given, assign, give_names, kept_names};
use crate::naming::passed::passed_names;
use crate::naming::rank::{Rank, rank_globals};
use crate::spelling::Piece;
use cc_ast::program::Program;
use cc_ast::tables::GlobalInfo;
use cc_ast::units::Units;
use sqlite_items::Items;
use std::alloc::{AllocError, Global};

/// The names of the globals, by their numbers, of a program that is printed as these pieces.
pub fn name(
    alloc: Global,
    program: &Program,
    pieces: &Items<Piece>,
) -> Result<Items<Units>, AllocError>
    ensures { IfOk result (λ names. IsNaming program.now pieces.now names) }
{
    let globals = program.globals.get().as_slice();
    let ranks = ranks_of(alloc, pieces.as_slice(), globals)?;
    let given = given_by(alloc, globals, ranks.as_slice())?;
    let mut names = kept_names(alloc, globals)?;
    assign(&mut names, given);
    Ok(names)
}

fn ranks_of(
    alloc: Global,
    pieces: &[Piece],
    globals: &[GlobalInfo],
) -> Result<Vec<Rank>, AllocError>
    requires short { length pieces.now < 2 ^ 64 }
    ensures all { IfOk result (λ ranks. IsPermutation (own_globals 0 globals.now) (map global_of ranks.items)) }
    ensures ranked { IfOk result (λ ranks. IsRanked pieces.now (map global_of ranks.items)) }
{
    let counts = count_globals(alloc, pieces, globals.len())?;
    rank_globals(alloc, pieces, globals, counts.as_slice())
}

fn given_by(
    alloc: Global,
    globals: &[GlobalInfo],
    ranks: &[Rank],
) -> Result<Items<Given>, AllocError>
    ensures globals { IfOk result (λ given. map given_to given ≡ map global_of ranks.now) }
    ensures names { IfOk result (λ given. (passed : List ℕ → Bool)
        × ((name : List ℕ) → passed name ≡ is_in name (reserved_words ++ strict_words ++ special_names ++ other_names globals.now))
        × Fresh passed 0 (map given_name given)) }
{
    let mut passed = passed_names(alloc, globals)?;
    give_names(alloc, &mut passed, ranks)
}

/// There is one naming.
pub fn naming_is_one()
    ensures { (program : S.Program) (pieces : List Piece) (names others : List (List ℕ))
        → IsNaming program pieces names → IsNaming program pieces others → names ≡ others }
{}

/// The names of the globals are ASCII where those of the externs and the built-in ones are.
pub fn names_are_ascii()
    ensures { (program : S.Program) (pieces : List Piece) (names : List (List ℕ)) → IsNaming program pieces names
        → All (λ info. IsAscii info.name) program.globals → All IsAscii names }
{}

/// Two globals that the chunks declare get different names, and none that is passed over.
pub fn own_names_differ()
    ensures apart { (program : S.Program) (pieces : List Piece) (names : List (List ℕ)) → IsNaming program pieces names
        → (g h : ℕ) (info other : tables.GlobalInfo) (c d : ℕ) (name : List ℕ)
        → slice_get program.globals g ≡ Some info → info.chunk ≡ Some c → slice_get program.globals h ≡ Some other → other.chunk ≡ Some d
        → slice_get names g ≡ Some name → slice_get names h ≡ Some name → g ≡ h }
    ensures kept { (program : S.Program) (pieces : List Piece) (names : List (List ℕ)) → IsNaming program pieces names
        → (g : ℕ) (info : tables.GlobalInfo) (c : ℕ) (name : List ℕ)
        → slice_get program.globals g ≡ Some info → info.chunk ≡ Some c → slice_get names g ≡ Some name → is_passed program name ≡ false }
{}

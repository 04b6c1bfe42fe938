// Reading whole files of the form.

ghost use Rattle.std.specs.Prelude.{◌≡◌, ℕ, List, [], Some, None, cond, IfOk, MatchOption};
ghost use Rattle.cc_driver.specs.declared.form.Statement.{Statement};
ghost use Rattle.cc_driver.specs.Form.{IsExterns, IsSource};
ghost use Rattle.cc_driver.specs.FormReading.{Finds};
ghost use Rattle.cc_driver.specs.FormChecks.{externs_found, names_test, source_found, names_in, all_declared, uses_known, bind};
ghost use Rattle.std.specs.List.{list_all};

use crate::form::Statement;
use crate::form::check::{all_declared, each_once, use_known};
use crate::form::cursor::{Cursor, MOST_BYTES};
use crate::form::reader::{functions, statements};
use crate::form::unread::Unread;
use crate::names::NameTable;
use cc_ast::units::Units;
use sqlite_items::Items;
use std::alloc::{AllocError, Global};

#[tactic(auto, unfolding(crate::specs::FormChecks::externs_found))]
fn externs_of(alloc: Global, text: &[u8]) -> Result<Items<Units>, Unread>
    ensures { Finds (externs_found text.now) result }
{
    if text.len() > MOST_BYTES {
        return Err(Unread::Form);
    }
    let mut cursor = Cursor::new(text);
    let names = functions(alloc, &mut cursor)?;
    drop(each_once(alloc, &names)?);
    Ok(names)
}

#[tactic(auto, unfolding(crate::specs::FormChecks::names_test))]
fn test_names(
    alloc: Global,
    externs: &Items<Units>,
    statements: &Items<Statement>,
) -> Result<(), Unread>
    ensures { Finds (names_test externs.now statements.now) result }
{
    let externs = each_once(alloc, externs)?;
    test_uses(alloc, &externs, statements)
}

#[tactic(auto, unfolding(crate::specs::FormChecks::names_test))]
fn test_uses(
    alloc: Global,
    externs: &NameTable<'_>,
    statements: &Items<Statement>,
) -> Result<(), Unread>
    ensures { Finds (bind (all_declared (names_in externs.now) [] statements.now) (λ names. cond (list_all (uses_known (names_in externs.now) names) statements.now) (Some tt) None)) result }
{
    let declared = all_declared(alloc, externs, statements)?;
    ok_where(use_known(externs, &declared, statements.as_slice()))
}

fn ok_where(known: bool) -> Result<(), Unread>
    ensures { Finds (cond known (Some tt) None) result }
{
    if known { Ok(()) } else { Err(Unread::Form) }
}

#[tactic(auto, unfolding(crate::specs::FormChecks::source_found))]
fn source_of(alloc: Global, externs: &Items<Units>, text: &[u8]) -> Result<Items<Statement>, Unread>
    ensures { Finds (source_found externs.now text.now) result }
{
    if text.len() > MOST_BYTES {
        return Err(Unread::Form);
    }
    let mut cursor = Cursor::new(text);
    let statements = statements(alloc, &mut cursor)?;
    test_names(alloc, externs, &statements)?;
    Ok(statements)
}

#[tactic(auto, using(crate::proofs::FormAnswers::externs_are, crate::proofs::FormAnswers::externs_none))]
/// The names of a file of externs, or `None` where it is not of the form.
pub fn read_externs(alloc: Global, text: &[u8]) -> Result<Option<Items<Units>>, AllocError>
    ensures { IfOk result (λ read. MatchOption read ((names : List (List ℕ)) → IsExterns text.now names → ⊥) (λ names. IsExterns text.now names)) }
{
    match externs_of(alloc, text) {
        Ok(names) => Ok(Some(names)),
        Err(Unread::Form) => Ok(None),
        Err(Unread::Memory(error)) => Err(error),
    }
}

#[tactic(auto, using(crate::proofs::FormAnswers::source_is, crate::proofs::FormAnswers::source_none))]
/// The statements of a source, or `None` where it is not of the form under these externs.
pub fn read_source(
    alloc: Global,
    externs: &Items<Units>,
    text: &[u8],
) -> Result<Option<Items<Statement>>, AllocError>
    requires { (file : List ℕ) × IsExterns file externs.now }
    ensures { IfOk result (λ read. MatchOption read ((statements : List Statement) → IsSource externs.now text.now statements → ⊥) (λ statements. IsSource externs.now text.now statements)) }
{
    match source_of(alloc, externs, text) {
        Ok(statements) => Ok(Some(statements)),
        Err(Unread::Form) => Ok(None),
        Err(Unread::Memory(error)) => Err(error),
    }
}

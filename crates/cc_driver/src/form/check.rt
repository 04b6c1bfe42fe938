// The names of a text of the form.

ghost use Rattle.std.specs.Prelude.{◌≡◌, [], ◌&&◌};
ghost use Rattle.std.specs.List.{list_all};
ghost use Rattle.cc_driver.specs.FormChecks as checks;
ghost use Rattle.cc_driver.specs.FormChecks.{names_in, FindsNames, Enters};

use crate::form::unread::Unread;
use crate::form::{Added, Operand, Statement, Value};
use crate::names::{NameTable, enter_name, has_name};
use cc_ast::units::Units;
use sqlite_items::Items;
use std::alloc::Global;

fn enter<'a>(table: &mut NameTable<'a>, name: &'a Units) -> Result<(), Unread>
    ensures { Enters (checks.enter (names_in table.old) name.now) result (names_in table.new) }
{
    let is_new = enter_name(table, name)?;
    if is_new { Ok(()) } else { Err(Unread::Form) }
}

/// A table of names, none of which comes twice.
#[tactic(auto, unfolding(crate::specs::FormChecks::each_once))]
pub(crate) fn each_once<'a>(alloc: Global, names: &'a Items<Units>) -> Result<NameTable<'a>, Unread>
    ensures { FindsNames (checks.each_once [] names.now) result }
{
    let mut table = NameTable::new(alloc);
    for name in names.as_slice() {
        enter(&mut table, name)?;
    }
    Ok(table)
}

fn enter_declared<'a>(
    externs: &NameTable<'_>,
    table: &mut NameTable<'a>,
    statement: &'a Statement,
) -> Result<(), Unread>
    ensures { Enters (checks.enter_declared (names_in externs.now) (names_in table.old) statement.now) result (names_in table.new) }
{
    match statement {
        Statement::Calls(_, _, _) => Ok(()),
        Statement::Declares(_, name, _) => {
            if has_name(externs, name) {
                Err(Unread::Form)
            } else {
                enter(table, name)
            }
        }
    }
}

/// A table of the names that the statements declare, none of which is an extern or comes twice.
#[tactic(auto, unfolding(crate::specs::FormChecks::all_declared))]
pub(crate) fn all_declared<'a>(
    alloc: Global,
    externs: &NameTable<'_>,
    statements: &'a Items<Statement>,
) -> Result<NameTable<'a>, Unread>
    ensures { FindsNames (checks.all_declared (names_in externs.now) [] statements.now) result }
{
    let mut table = NameTable::new(alloc);
    for statement in statements.as_slice() {
        enter_declared(externs, &mut table, statement)?;
    }
    Ok(table)
}

fn is_known_one(declared: &NameTable<'_>, operand: &Operand) -> bool
    ensures { result ≡ checks.is_known_one (names_in declared.now) operand.now }
{
    match operand {
        Operand::Named(_, name) => has_name(declared, name),
        Operand::Text(_, _) => true,
        Operand::Whole(_, _) => true,
    }
}

fn are_known_more(declared: &NameTable<'_>, more: &[Added]) -> bool
    ensures { result ≡ list_all (λ m. checks.is_known_one (names_in declared.now) m.operand) more.now }
{
    more.iter()
        .all(|added| is_known_one(declared, &added.operand))
}

fn is_known(declared: &NameTable<'_>, value: &Value) -> bool
    ensures { result ≡ checks.is_known (names_in declared.now) value.now }
{
    is_known_one(declared, &value.first) && are_known_more(declared, value.more.as_slice())
}

fn are_known(declared: &NameTable<'_>, values: &[Value]) -> bool
    ensures { result ≡ list_all (checks.is_known (names_in declared.now)) values.now }
{
    values.iter().all(|value| is_known(declared, value))
}

fn uses_known(externs: &NameTable<'_>, declared: &NameTable<'_>, statement: &Statement) -> bool
    ensures { result ≡ checks.uses_known (names_in externs.now) (names_in declared.now) statement.now }
{
    match statement {
        Statement::Declares(_, _, value) => is_known(declared, value),
        Statement::Calls(_, name, values) => {
            has_name(externs, name) && are_known(declared, values.as_slice())
        }
    }
}

/// Whether each called name is an extern, and each name that is used as a value is declared.
pub(crate) fn use_known(
    externs: &NameTable<'_>,
    declared: &NameTable<'_>,
    statements: &[Statement],
) -> bool
    ensures { result ≡ list_all (checks.uses_known (names_in externs.now) (names_in declared.now)) statements.now }
{
    statements
        .iter()
        .all(|statement| uses_known(externs, declared, statement))
}

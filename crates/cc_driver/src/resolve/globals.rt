// The globals of a source.

ghost use Rattle.std.specs.Prelude.{◌≡◌, ℕ, ◌++◌, [], List, map, IfOk, OnOk, None, Some};
ghost use Rattle.std.specs.List.{IsDistinct};
ghost use Rattle.std.specs.Str.{bytes_eq};
ghost use Rattle.cc_driver.specs.Form.{declared, declared_by};
ghost use Rattle.cc_driver.specs.FormChecks.{names_in};
ghost use Rattle.cc_driver.specs.Names.{built_in_names};
ghost use Rattle.cc_driver.specs.Source.{global_of_no_chunk, global_of_main};
ghost use Rattle.cc_driver.specs.Reach.{names_of};

use crate::form::Statement;
use crate::names::{NameTable, enter_name};
use crate::resolve::copy_units;
use crate::resolve::kept::names_of;
use cc_ast::tables::GlobalInfo;
use cc_ast::units::Units;
use sqlite_items::Items;
use std::alloc::{AllocError, Global};

static BUILT_INS: [&[u8]; 3] = [b"Object", b"Math", b"String"];

fn built_ins(alloc: Global) -> Result<Items<Units>, AllocError>
    ensures { IfOk result (λ names. names ≡ built_in_names) }
{
    names_of(alloc, &BUILT_INS)
}

fn outside(alloc: Global, names: &[Units]) -> Result<Items<GlobalInfo>, AllocError>
    ensures { IfOk result (λ globals. globals ≡ map global_of_no_chunk names.now) }
{
    let mut globals = Items::new(alloc);
    for name in names {
        globals.push(GlobalInfo {
            name: copy_units(alloc, name)?,
            chunk: None,
            doc: 0,
            flat: Items::new(alloc),
        })?;
    }
    Ok(globals)
}

fn add_declared(
    alloc: Global,
    globals: &mut Items<GlobalInfo>,
    statement: &Statement,
) -> Result<(), AllocError>
    ensures { OnOk result (globals.new ≡ globals.old ++ map global_of_main (declared_by statement.now)) }
{
    match statement {
        Statement::Calls(_, _, _) => Ok(()),
        Statement::Declares(_, name, _) => globals.push(GlobalInfo {
            name: copy_units(alloc, name)?,
            chunk: Some(0),
            doc: 0,
            flat: Items::new(alloc),
        }),
    }
}

fn inside(alloc: Global, statements: &[Statement]) -> Result<Items<GlobalInfo>, AllocError>
    ensures { IfOk result (λ globals. globals ≡ map global_of_main (declared statements.now)) }
{
    let mut globals = Items::new(alloc);
    for statement in statements {
        add_declared(alloc, &mut globals, statement)?;
    }
    Ok(globals)
}

/// The globals of a source with these externs: they stand first, then the built-in ones, and then
/// those that the source declares.
#[tactic(auto, using(crate::proofs::Resolved::outside_append))]
pub(crate) fn globals_of(
    alloc: Global,
    externs: &Items<Units>,
    statements: &Items<Statement>,
) -> Result<Items<GlobalInfo>, AllocError>
    ensures { IfOk result (λ globals. globals ≡ map global_of_no_chunk (externs.now ++ built_in_names) ++ map global_of_main (declared statements.now)) }
{
    let mut globals = outside(alloc, externs.as_slice())?;
    add_built_ins(alloc, &mut globals)?;
    add_inside(alloc, &mut globals, statements.as_slice())?;
    Ok(globals)
}

fn add_built_ins(alloc: Global, globals: &mut Items<GlobalInfo>) -> Result<(), AllocError>
    ensures { OnOk result (globals.new ≡ globals.old ++ map global_of_no_chunk built_in_names) }
{
    let names = built_ins(alloc)?;
    let more = outside(alloc, names.as_slice())?;
    globals.append(more)
}

fn add_inside(
    alloc: Global,
    globals: &mut Items<GlobalInfo>,
    statements: &[Statement],
) -> Result<(), AllocError>
    ensures { OnOk result (globals.new ≡ globals.old ++ map global_of_main (declared statements.now)) }
{
    let more = inside(alloc, statements)?;
    globals.append(more)
}

/// A table of the globals' names, by their numbers.
pub(crate) fn global_table<'a>(
    alloc: Global,
    globals: &'a Items<GlobalInfo>,
) -> Result<NameTable<'a>, AllocError>
    requires { IsDistinct bytes_eq (names_of globals.now) }
    ensures { IfOk result (λ table. names_in table ≡ names_of globals.now) }
{
    let mut table = NameTable::new(alloc);
    for global in globals.as_slice() {
        let Ok(_) = enter_name(&mut table, &global.name) else {
            return Err(AllocError);
        };
    }
    Ok(table)
}

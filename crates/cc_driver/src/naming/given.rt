// Names that are given to globals.
ghost use Rattle.std.specs.Prelude.{◌≡◌, ℕ, ◌<◌, IfOk, OnOk, true, false, map, All, length};
ghost use Rattle.cc_driver.specs.Naming.{Fresh};
ghost use Rattle.cc_driver.specs.NamingSteps.{has_name, global_of, kept_name, assigned, given_to, given_name, Takes, PassesOver};

use crate::naming::number::numbered;
use crate::naming::rank::Rank;
use cc_ast::copy::CopyOf;
use cc_ast::tables::GlobalInfo;
use cc_ast::units::Units;
use indexmap::IndexSet;
use sqlite_items::Items;
use std::alloc::{AllocError, Global};

/// A name for a global.
#[derive(Drop)]
pub struct Given {
    pub global: usize,
    pub name: Units,
}

/// The names in order, one for each of the ranks, but for those that are passed over.
pub fn give_names(
    alloc: Global,
    passed: &mut IndexSet<Vec<u16>>,
    ranks: &[Rank],
) -> Result<Items<Given>, AllocError>
    ensures globals { IfOk result (λ given. map given_to given ≡ map global_of ranks.now) }
    ensures names { IfOk result (λ given. Fresh (has_name passed.old.keys) 0 (map given_name given)) }
{
    let mut given = Items::new(alloc);
    let _room = passed.len();
    let mut k = 0u64;
    'giving: while given.len() < ranks.len() {
        let global = ranks[given.len()].global;
        let Ok(name) = numbered(alloc, k) else {
            return Err(AllocError);
        };
        let Ok(()) = give(passed, &mut given, global, name) else {
            return Err(AllocError);
        };
        k += 1;
    }
    Ok(given)
}

/// Gives the name, or passes it over. Each name comes once, so one that was passed over may leave
/// the set.
fn give(
    passed: &mut IndexSet<Vec<u16>>,
    given: &mut Items<Given>,
    global: usize,
    name: Vec<u16>,
) -> Result<(), AllocError>
    ensures taken { OnOk result (has_name passed.old.keys name.items ≡ false
        → Takes passed.old.keys passed.new.keys given.old given.new global name.items) }
    ensures passed_over { OnOk result (has_name passed.old.keys name.items ≡ true
        → PassesOver passed.old.keys passed.new.keys given.old given.new name.items) }
{
    if passed.swap_remove(name.as_slice()) {
        return Ok(());
    }
    given.push(Given {
        global,
        name: Units { list: name },
    })
}

/// The names of the extern and the built-in globals in their places, and empty ones in the others.
pub fn kept_names(alloc: Global, globals: &[GlobalInfo]) -> Result<Items<Units>, AllocError>
    ensures { IfOk result (λ names. names ≡ map kept_name globals.now) }
{
    let mut names = Items::new(alloc);
    for global in globals {
        names.push(kept(alloc, global)?)?;
    }
    Ok(names)
}

fn kept(alloc: Global, global: &GlobalInfo) -> Result<Units, AllocError>
    ensures { IfOk result (λ name. name ≡ kept_name global.now) }
{
    match global.chunk {
        None => global.name.copy_of(alloc),
        Some(_) => Ok(Units {
            list: Vec::new(alloc),
        }),
    }
}

/// Puts each name into its global's place.
pub fn assign(names: &mut Items<Units>, mut given: Items<Given>)
    requires { All (λ g. g.global < length names.old) given }
    ensures { names.new ≡ assigned given names.old }
{
    while let Some(last) = given.pop() {
        let Given { global, name } = last;
        names.set(global, name);
    }
}

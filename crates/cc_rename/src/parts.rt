// What the parts of statements that hold expressions have.
ghost use Rattle.std.specs.Prelude.{◌≡◌, ◌++◌, OnOk, map};
ghost use Rattle.cc_ast.specs.Bridge.{option_term};
ghost use Rattle.cc_ast.specs.StmtBridge.{declarator, for_init, for_target};
ghost use Rattle.cc_rename.specs.Steps.{met_option, met_declarator, met_vars, met_init, met_heading};

use crate::expression::{meet_expr, meet_target};
use crate::met::Met;
use cc_ast::tree::{Declarator, Expr, ForInit, ForTarget};
use sqlite_items::{Boxed, Items};
use std::alloc::AllocError;

/// Adds what an expression has, where there is one.
#[tactic(auto, using(crate::proofs::WalkParts::option_steps))]
pub(crate) fn meet_option(
    met: &mut Items<Met>,
    catches: usize,
    e: &Option<Boxed<Expr>>,
) -> Result<(), AllocError>
    ensures { OnOk result (met.new ≡ met.old ++ met_option catches (option_term e.now)) }
{
    match e {
        None => Ok(()),
        Some(e) => meet_expr(met, catches, e.get()),
    }
}

pub(crate) fn meet_declarator(
    met: &mut Items<Met>,
    catches: usize,
    d: &Declarator,
) -> Result<(), AllocError>
    ensures { OnOk result (met.new ≡ met.old ++ met_declarator catches (declarator d.now)) }
{
    met.push(Met::Variable(catches, d.variable))?;
    meet_option(met, catches, &d.value)
}

pub(crate) fn meet_vars(
    met: &mut Items<Met>,
    catches: usize,
    ds: &Items<Declarator>,
) -> Result<(), AllocError>
    ensures { OnOk result (met.new ≡ met.old ++ met_vars catches (map declarator ds.now)) }
{
    for d in ds.as_slice() {
        meet_declarator(met, catches, d)?;
    }
    Ok(())
}

/// Adds what a `for` begins with has.
#[tactic(auto, using(crate::proofs::WalkParts::init_steps))]
pub(crate) fn meet_init(
    met: &mut Items<Met>,
    catches: usize,
    init: &ForInit,
) -> Result<(), AllocError>
    ensures { OnOk result (met.new ≡ met.old ++ met_init catches (for_init init.now)) }
{
    match init {
        ForInit::Nothing => Ok(()),
        ForInit::Value(e) => meet_expr(met, catches, e.get()),
        ForInit::Declared(ds) => meet_vars(met, catches, ds),
    }
}

/// Adds what the names of a `for-in` are written to has.
#[tactic(auto, using(crate::proofs::WalkParts::heading_steps))]
pub(crate) fn meet_heading(
    met: &mut Items<Met>,
    catches: usize,
    names: &ForTarget,
) -> Result<(), AllocError>
    ensures { OnOk result (met.new ≡ met.old ++ met_heading catches (for_target names.now)) }
{
    match names {
        ForTarget::Target(t) => meet_target(met, catches, t.get()),
        ForTarget::Declared(d) => meet_declarator(met, catches, d.get()),
    }
}

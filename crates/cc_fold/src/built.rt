// Which globals of a program are built in.
ghost use Rattle.std.specs.Prelude.{◌≡◌, IfOk, ◌&&◌, count_by, is_none, nat_le};
ghost use Rattle.cc_fold.specs.Built.{built_globals, built_in};

use cc_ast::program::Program;
use cc_ast::tables::GlobalInfo;
use cc_ast::tree::Ref;
use std::alloc::{AllocError, Global};
use std::marker::Model;

/// What folding knows of a program: for each global whether it is built in.
#[derive(Drop)]
pub struct Plan {
    built: Vec<bool>,
}

impl Model for Plan {
    ghost use Rattle.std.specs.Prelude.{Bool, List};

    ghost Value = { List Bool };

    ghost view = { λ p. p.built.items };
}

/// Whether a variable stands for what is built in. A global that the program doesn't have counts as
/// built in.
#[tactic(auto, unfolding(crate::specs::Built::built_in))]
pub fn is_built(plan: &Plan, variable: Ref) -> bool
    ensures { result ≡ built_in plan.now variable }
{
    match variable {
        Ref::Frame(_, _) => false,
        Ref::Global(n) => match plan.built.get(n as usize) {
            Some(built) => *built,
            None => true,
        },
    }
}

// How many globals no chunk declares.
fn outer_globals(globals: &[GlobalInfo]) -> usize
    ensures { result ≡ count_by (λ g. is_none g.chunk) globals.now }
{
    globals.iter().filter(|g| g.chunk.is_none()).count()
}

// Whether a global is built in, where so many externs stand first.
fn is_built_at(global: &GlobalInfo, externs: usize, n: usize) -> bool
    ensures { result ≡ (is_none global.now.chunk && nat_le externs n) }
{
    global.chunk.is_none() && externs <= n
}

/// The globals that are built in: those of no chunk from the third last of these on.
pub fn built_of(alloc: Global, program: &Program) -> Result<Plan, AllocError>
    ensures { IfOk result (λ p. p ≡ built_globals program.now) }
{
    let globals = program.globals.get().as_slice();
    let externs = outer_globals(globals).saturating_sub(3);
    let mut built = Vec::new(alloc);
    for (n, global) in globals.iter().enumerate() {
        built.push(is_built_at(global, externs, n))?;
    }
    Ok(Plan { built })
}

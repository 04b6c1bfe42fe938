// Costs: each call, each construction, each turn of a loop and each unit of a price mark.

ghost use Rattle.std.specs.Prelude.{◌≡◌, List};
ghost use Rattle.cc_ast.specs.Syntax.{Program};
ghost use Rattle.cc_meaning.specs.Monad as Monad;
ghost use Rattle.cc_meaning.specs.State.{Reply};
ghost use Rattle.cc_acts.specs.Shown.{Comes, state_of};

use crate::state::State;
use crate::stop::{End, Stop};

/// A cost falls due: the budget is less, or where it doesn't suffice, the run ends.
pub fn pay(state: &mut State, price: u64) -> Result<(), Stop>
    ensures { (P : Program) (rs : List Reply) → Comes (λ u. u) result (state_of P rs state.new) (Monad.pay price (state_of P rs state.old)) }
{
    match state.budget.checked_sub(price) {
        Some(left) => {
            state.budget = left;
            Ok(())
        }
        None => Err(Stop::Ended(End::Spent)),
    }
}

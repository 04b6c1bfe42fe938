// Literals with their prices.
ghost use Rattle.cc_value.specs.Bridge.{IsMade, IsNoObject};
ghost use Rattle.cc_fold.specs.Made.{made_once, no_object_once};

pub mod read;

use cc_value::value::Value;

/// A literal's value, and the price before it, which is 0 where there is no mark.
#[derive(Drop)]
pub struct Literal {
    pub price: u64,
    pub value: Value,
    ghost made: { IsMade value } by { made_once value },
    ghost no_object: { IsNoObject value } by { no_object_once value },
}

//! Values as the machine holds them, what the outside sees of them, and the operators on them.
//! `binary` and `unary` answer exactly the operator table of the meaning, and `binary_rule` and
//! `unary_rule` what it breaks; each value stands for one of the meaning by `value_of` of
//! specs/Bridge.antt.
#![tactic(auto)]

pub mod operate;
pub mod rules;
pub mod texts;
pub mod value;
mod whole;

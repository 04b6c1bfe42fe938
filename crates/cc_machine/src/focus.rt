// What the machine is about to do, as far as its steps are written: an expression whose value is
// wanted, a value that the newest frame waits for, or a throw.

use cc_ast::tree::Expr;
use cc_value::value::Value;

#[derive(Drop)]
pub(crate) enum Focus<'a> {
    Want(&'a Expr),
    Gave(Value),
    Tossed(Value),
}

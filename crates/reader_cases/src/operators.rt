// How operators are written.

use cc_ast::operator::{BinOp, UnOp};

// The binary ones, in the order of their numbers.
static BINARY: [&str; 21] = [
    "+",
    "-",
    "*",
    "/",
    "%",
    "&",
    "^",
    "|",
    "<<",
    ">>",
    ">>>",
    "<",
    ">",
    "<=",
    ">=",
    "==",
    "!=",
    "===",
    "!==",
    "instanceof",
    "in",
];

// The unary ones, in the order of their numbers.
static UNARY: [&str; 7] = ["-", "+", "~", "!", "void", "typeof", "delete"];

pub(crate) fn binary(operator: BinOp) -> &'static str {
    BINARY[operator as usize]
}

pub(crate) fn unary(operator: UnOp) -> &'static str {
    UNARY[operator as usize]
}

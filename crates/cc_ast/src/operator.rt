// Operators.

/// A binary operator (ECMA-262 5.1, 11.5 to 11.10). `Instance` is `instanceof`, `Has` is `in`,
/// `Strict` is `===`.
#[derive(Clone, Copy, PartialEq, Eq)]
pub enum BinOp {
    Add,
    Sub,
    Mul,
    Div,
    Rem,
    BitAnd,
    BitXor,
    BitOr,
    Shl,
    Shr,
    UShr,
    Less,
    Greater,
    LessEq,
    GreaterEq,
    Equal,
    NotEqual,
    Strict,
    NotStrict,
    Instance,
    Has,
}

/// A unary operator that leaves its operand where it is (ECMA-262 5.1, 11.4).
#[derive(Clone, Copy)]
pub enum UnOp {
    Minus,
    Plus,
    BitNot,
    Not,
    Void,
    Typeof,
    Delete,
}

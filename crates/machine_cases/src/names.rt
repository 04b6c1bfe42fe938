// The names of operators, and of uses of what is built in.

use crate::words::word_at;
use cc_ast::operator::{BinOp, UnOp};
use cc_conform::act::{ArrayUse, BuiltInUse, MathUse, Op, TextUse};

static BINARY: [(&str, BinOp); 21] = [
    ("+", BinOp::Add),
    ("-", BinOp::Sub),
    ("*", BinOp::Mul),
    ("/", BinOp::Div),
    ("%", BinOp::Rem),
    ("&", BinOp::BitAnd),
    ("|", BinOp::BitOr),
    ("^", BinOp::BitXor),
    ("<<", BinOp::Shl),
    (">>", BinOp::Shr),
    (">>>", BinOp::UShr),
    ("<", BinOp::Less),
    (">", BinOp::Greater),
    ("<=", BinOp::LessEq),
    (">=", BinOp::GreaterEq),
    ("==", BinOp::Equal),
    ("!=", BinOp::NotEqual),
    ("===", BinOp::Strict),
    ("!==", BinOp::NotStrict),
    ("instanceof", BinOp::Instance),
    ("in", BinOp::Has),
];

static UNARY: [(&str, UnOp); 7] = [
    ("-", UnOp::Minus),
    ("+", UnOp::Plus),
    ("~", UnOp::BitNot),
    ("!", UnOp::Not),
    ("void", UnOp::Void),
    ("typeof", UnOp::Typeof),
    ("delete", UnOp::Delete),
];

static BUILT: [(&str, BuiltInUse); 22] = [
    ("array.push", BuiltInUse::Array(ArrayUse::Push)),
    ("array.unshift", BuiltInUse::Array(ArrayUse::Unshift)),
    ("array.pop", BuiltInUse::Array(ArrayUse::Pop)),
    ("array.shift", BuiltInUse::Array(ArrayUse::Shift)),
    ("array.slice", BuiltInUse::Array(ArrayUse::Slice)),
    ("array.concat", BuiltInUse::Array(ArrayUse::Concat)),
    ("array.join", BuiltInUse::Array(ArrayUse::Join)),
    ("array.indexOf", BuiltInUse::Array(ArrayUse::IndexOf)),
    ("text.charAt", BuiltInUse::Text(TextUse::CharAt)),
    ("text.charCodeAt", BuiltInUse::Text(TextUse::CharCodeAt)),
    ("text.indexOf", BuiltInUse::Text(TextUse::IndexOf)),
    ("text.lastIndexOf", BuiltInUse::Text(TextUse::LastIndexOf)),
    ("text.slice", BuiltInUse::Text(TextUse::Slice)),
    ("text.substring", BuiltInUse::Text(TextUse::Substring)),
    ("String", BuiltInUse::StringOf),
    ("String.fromCharCode", BuiltInUse::FromCharCode),
    ("Math.max", BuiltInUse::Math(MathUse::Max)),
    ("Math.min", BuiltInUse::Math(MathUse::Min)),
    ("Math.abs", BuiltInUse::Math(MathUse::Abs)),
    ("Object.create", BuiltInUse::ObjectCreate),
    ("hasOwnProperty", BuiltInUse::HasOwnProperty),
    ("call", BuiltInUse::Call),
];

pub fn binary_named(word: &str) -> Option<BinOp> {
    for (name, op) in &BINARY {
        if *name == word {
            return Some(*op);
        }
    }
    None
}

pub fn unary_named(word: &str) -> Option<UnOp> {
    for (name, op) in &UNARY {
        if *name == word {
            return Some(*op);
        }
    }
    None
}

fn built_named(word: &str) -> Option<BuiltInUse> {
    for (name, op) in &BUILT {
        if *name == word {
            return Some(*op);
        }
    }
    None
}

pub fn binary_at(words: &[&str], at: usize) -> Option<BinOp> {
    match words.get(at) {
        Some(word) => binary_named(word),
        None => None,
    }
}

pub fn unary_at(words: &[&str], at: usize) -> Option<UnOp> {
    match words.get(at) {
        Some(word) => unary_named(word),
        None => None,
    }
}

// The operator of one operand, or of two.
fn operator_named(words: &[&str]) -> Option<Op> {
    if words.len() == 3 {
        return match unary_at(words, 1) {
            Some(op) => Some(Op::Unary(op)),
            None => None,
        };
    }
    match binary_at(words, 1) {
        Some(op) => Some(Op::Binary(op)),
        None => None,
    }
}

/// What is applied to operands: its name stands before them.
pub fn op_named(words: &[&str]) -> Option<Op> {
    let Some(name) = word_at(words, 1) else {
        return None;
    };
    match built_named(name) {
        Some(built) => Some(Op::Built(built)),
        None => operator_named(words),
    }
}

pub fn binary_name(wanted: BinOp) -> &'static str {
    for (name, op) in &BINARY {
        if *op == wanted {
            return name;
        }
    }
    "another"
}

pub fn unary_name(op: UnOp) -> &'static str {
    match op {
        UnOp::Minus => "-",
        UnOp::Plus => "+",
        UnOp::BitNot => "~",
        UnOp::Not => "!",
        UnOp::Void => "void",
        UnOp::Typeof => "typeof",
        UnOp::Delete => "delete",
    }
}

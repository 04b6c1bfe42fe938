// What is about to happen.

use cc_ast::operator::{BinOp, UnOp};
use cc_ast::units::Units;
use cc_value::value::Value;
use sqlite_items::Items;

/// A method of arrays (ECMA-262 5.1, 15.4.4). An array's length and its elements are accesses.
#[derive(Clone, Copy)]
pub enum ArrayUse {
    Push,
    Unshift,
    Pop,
    Shift,
    Slice,
    Concat,
    Join,
    IndexOf,
}

/// A method of texts (ECMA-262 5.1, 15.5.4). A text's length is an access.
#[derive(Clone, Copy)]
pub enum TextUse {
    CharAt,
    CharCodeAt,
    IndexOf,
    LastIndexOf,
    Slice,
    Substring,
}

/// A function of `Math` (ECMA-262 5.1, 15.8.2).
#[derive(Clone, Copy)]
pub enum MathUse {
    Max,
    Min,
    Abs,
}

/// A use of what is built in (ECMA-262 5.1, 15), with `String(v)`, `String.fromCharCode`,
/// `Object.create`, and `hasOwnProperty` and `call` of every object and function.
#[derive(Clone, Copy)]
pub enum BuiltInUse {
    Array(ArrayUse),
    Text(TextUse),
    StringOf,
    FromCharCode,
    Math(MathUse),
    ObjectCreate,
    HasOwnProperty,
    Call,
}

/// What is applied to operands. The receiver of a built-in use is its first operand.
#[derive(Clone, Copy)]
pub enum Op {
    Unary(UnOp),
    Binary(BinOp),
    Built(BuiltInUse),
}

/// A variable: a global, a place of a scope, or a flat path by its global and its number.
#[derive(Clone, Copy)]
pub enum Variable {
    Global(u32),
    Local { scope: u32, place: u32 },
    Flat { global: u32, number: u32 },
}

/// The key of an access: a property's number after a dot, a text that was written in quotes, or
/// the text of a value, with whether the value was a whole number.
#[derive(Drop)]
pub enum Access {
    Dotted(u32),
    Quoted(Units),
    Runtime { text: Units, whole: bool },
}

/// What is about to happen. A write `declares` where it is made by the declaration statement of
/// the prototype of the function that it writes to. A leave is `built` where the call is by `new`.
/// In an act of the host, `given` tells whether each handle that is used was given out, and
/// `threw` whether the chunk that is loaded depends on one that threw.
#[derive(Drop)]
pub enum Act {
    Operate {
        op: Op,
        operands: Items<Value>,
    },
    Read {
        on: Value,
        key: Access,
    },
    Write {
        on: Value,
        key: Access,
        value: Value,
        declares: bool,
    },
    Remove {
        on: Value,
        key: Access,
    },
    Probe {
        on: Value,
        key: Access,
    },
    Walk {
        on: Value,
    },
    Callee {
        value: Value,
    },
    Enter {
        function: u32,
        receiver: Option<Value>,
        args: Items<Value>,
    },
    Leave {
        function: u32,
        built: bool,
        value: Value,
    },
    Take {
        variable: Variable,
        loaded: bool,
        set: bool,
    },
    Keep {
        variable: Variable,
        value: Value,
    },
    This {
        receiver: Option<Value>,
    },
    Cast {
        wanted: u32,
        value: Value,
    },
    Host {
        given: bool,
        on: Option<Value>,
        name: Option<Units>,
        threw: bool,
    },
    Inner {
        given: bool,
    },
    Reply {
        given: bool,
    },
}

// Arithmetic on whole numbers within 2^53-1 (ECMA-262 5.1, 11.5 to 11.7, 11.10).

ghost use Rattle.std.specs.Prelude.{◌≡◌, ◌*◌, ◌<◌, ◌≤◌, unsigned_abs, ◌+ℤ◌, ◌-ℤ◌};
ghost use Rattle.std.specs.Int.{is_negative};
ghost use Rattle.cc_meaning.specs.Operators.{gives, number, with_sign, divide_sizes, rest_of_sizes, signs_differ, to_uint32, to_int32, from_bits32, shift_count, greatest_whole, whole_binary, whole_unary};
ghost use Rattle.cc_value.specs.Bridge.{Answers, value_of};

use crate::value::{OpFault, Value};
use cc_ast::operator::{BinOp, UnOp};

/// The greatest number: 2^53-1.
pub(crate) const GREATEST: u64 = 9_007_199_254_740_991;

// The number, where it is one.
fn number(z: i64) -> Result<Value, OpFault>
    ensures { Answers result (number z) }
{
    if z.unsigned_abs() <= GREATEST {
        Ok(Value::Whole(z))
    } else {
        Err(OpFault::Rule1)
    }
}

// The number of this sign and this size, where it is one.
pub(crate) fn with_sign(minus: bool, size: u64) -> Result<Value, OpFault>
    ensures { Answers result (with_sign minus size) }
{
    if size > GREATEST || (minus && size == 0) {
        return Err(OpFault::Rule1);
    }
    let z = size as i64;
    if minus {
        Ok(Value::Whole(-z))
    } else {
        Ok(Value::Whole(z))
    }
}

fn signs_differ(a: i64, b: i64) -> bool
    ensures { result ≡ signs_differ a b }
{
    (a < 0) != (b < 0)
}

fn product(a: i64, b: i64) -> Result<Value, OpFault>
    ensures { Answers result (with_sign (signs_differ a b) (unsigned_abs a * unsigned_abs b)) }
{
    match a.unsigned_abs().checked_mul(b.unsigned_abs()) {
        Some(size) => with_sign(signs_differ(a, b), size),
        None => Err(OpFault::Rule1),
    }
}

fn quotient(a: i64, b: i64) -> Result<Value, OpFault>
    ensures { Answers result (divide_sizes (signs_differ a b) (unsigned_abs a) (unsigned_abs b)) }
{
    let size = a.unsigned_abs();
    let by = b.unsigned_abs();
    if by == 0 || size % by != 0 {
        return Err(OpFault::Rule1);
    }
    with_sign(signs_differ(a, b), size / by)
}

fn rest(a: i64, b: i64) -> Result<Value, OpFault>
    ensures { Answers result (rest_of_sizes (is_negative a) (unsigned_abs a) (unsigned_abs b)) }
{
    let by = b.unsigned_abs();
    if by == 0 {
        return Err(OpFault::Rule1);
    }
    with_sign(a < 0, a.unsigned_abs() % by)
}

/// `+` on whole numbers.
pub(crate) fn sum(a: i64, b: i64) -> Result<Value, OpFault>
    ensures { Answers result (number (a +ℤ b)) }
{
    match a.checked_add(b) {
        Some(z) => number(z),
        None => Err(OpFault::Rule1),
    }
}

fn difference(a: i64, b: i64) -> Result<Value, OpFault>
    ensures { Answers result (number (a -ℤ b)) }
{
    match a.checked_sub(b) {
        Some(z) => number(z),
        None => Err(OpFault::Rule1),
    }
}

/// The lowest 32 bits (ECMA-262 5.1, 9.6).
pub(crate) fn to_uint32(z: i64) -> u32
    ensures { result ≡ to_uint32 z }
{
    z.rem_euclid(4_294_967_296) as u32
}

fn to_int32(z: i64) -> i32
    ensures { result ≡ to_int32 z }
{
    to_uint32(z).cast_signed()
}

/// The signed number with these 32 bits.
pub(crate) fn from_bits32(bits: u32) -> Value
    ensures { from_bits32 bits ≡ gives (value_of result) }
{
    Value::Whole(i64::from(bits.cast_signed()))
}

fn shift_count(z: i64) -> u32
    ensures count { result ≡ shift_count z }
    ensures small { result < 32 }
{
    to_uint32(z) % 32
}

/// An operator on two whole numbers, all but `+`.
pub(crate) fn operate(op: BinOp, a: i64, b: i64) -> Result<Value, OpFault>
    ensures { Answers result (whole_binary op a b) }
{
    match op {
        BinOp::Sub => difference(a, b),
        BinOp::Mul => product(a, b),
        BinOp::Div => quotient(a, b),
        BinOp::Rem => rest(a, b),
        BinOp::BitAnd => Ok(from_bits32(to_uint32(a) & to_uint32(b))),
        BinOp::BitXor => Ok(from_bits32(to_uint32(a) ^ to_uint32(b))),
        BinOp::BitOr => Ok(from_bits32(to_uint32(a) | to_uint32(b))),
        BinOp::Shl => Ok(from_bits32(to_uint32(a) << shift_count(b))),
        BinOp::Shr => Ok(Value::Whole(i64::from(to_int32(a) >> shift_count(b)))),
        BinOp::UShr => Ok(Value::Whole(i64::from(to_uint32(a) >> shift_count(b)))),
        _ => Err(OpFault::Rule2),
    }
}

/// A sign or `~` of a whole number.
pub(crate) fn operate_one(op: UnOp, z: i64) -> Result<Value, OpFault>
    ensures { Answers result (whole_unary op z) }
{
    match op {
        UnOp::Minus => {
            let minus = z < 0;
            with_sign(!minus, z.unsigned_abs())
        }
        UnOp::Plus => Ok(Value::Whole(z)),
        UnOp::BitNot => Ok(from_bits32(!to_uint32(z))),
        _ => Err(OpFault::Rule2),
    }
}

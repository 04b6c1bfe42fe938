// Reading the parts of the form at a cursor. A function that answers an error leaves the cursor
// anywhere.

ghost use Rattle.std.specs.Prelude.{◌≡◌, ◌+◌, ◌<◌, [], ◌∷◌, ◌++◌, Some, codes, drop, length, suc};
ghost use Rattle.cc_driver.specs.FormReading as reading;
ghost use Rattle.cc_driver.specs.FormReading.{Reads, ReadsBytes, Adds, Finds, and_then, expect, expect_word};

use crate::form::cursor::Cursor;
use crate::form::name::{
    digits_length, free_number, is_digit, is_free_name, name_length, plain_length, units_of,
};
use crate::form::unread::Unread;
use crate::form::{Added, Operand, Statement, Value};
use cc_ast::units::Units;
use sqlite_items::Items;
use std::alloc::{AllocError, Global};

// The most operands that follow the first one of a chain.
const MOST_MORE: usize = 256;

#[tactic(auto, unfolding(crate::specs::FormReading::read_name))]
fn name<'a>(cursor: &mut Cursor<'a>) -> Result<&'a [u8], Unread>
    ensures { ReadsBytes (reading.read_name cursor.old.at cursor.old.rest.now) result cursor.new.at cursor.new.rest.now }
{
    let rest = cursor.rest();
    let length = name_length(rest);
    let name = &rest[..length];
    if !is_free_name(name) {
        return Err(Unread::Form);
    }
    cursor.advance(length);
    Ok(name)
}

// The rest of a text behind its opening quote, which stands at `at`.
#[tactic(auto, unfolding(crate::specs::FormReading::read_text))]
fn text(alloc: Global, cursor: &mut Cursor<'_>, at: u32, quote: u8) -> Result<Operand, Unread>
    requires place { cursor.old.at ≡ at + 1 }
    requires some { 0 < quote }
    ensures { Reads (reading.read_text quote at cursor.old.rest.now) result cursor.new.at cursor.new.rest.now }
{
    let rest = cursor.rest();
    let length = plain_length(rest);
    let text = &rest[..length];
    cursor.advance(length);
    cursor.byte(quote)?;
    Ok(Operand::Text(at, units_of(alloc, text)?))
}

// A whole number.
#[tactic(auto, unfolding(crate::specs::FormReading::read_number))]
fn number(cursor: &mut Cursor<'_>) -> Result<Operand, Unread>
    ensures { Reads (reading.read_number cursor.old.at cursor.old.rest.now) result cursor.new.at cursor.new.rest.now }
{
    let at = cursor.at();
    let rest = cursor.rest();
    let length = digits_length(rest);
    let Some(number) = free_number(&rest[..length]) else {
        return Err(Unread::Form);
    };
    cursor.advance(length);
    Ok(Operand::Whole(at, number))
}

#[tactic(auto, unfolding(crate::specs::FormReading::read_operand))]
fn operand(alloc: Global, cursor: &mut Cursor<'_>) -> Result<Operand, Unread>
    ensures { Reads (reading.read_operand cursor.old.at cursor.old.rest.now) result cursor.new.at cursor.new.rest.now }
{
    let at = cursor.at();
    let first = cursor.look();
    if first == b'\'' || first == b'"' {
        cursor.advance(1);
        text(alloc, cursor, at, first)
    } else if is_digit(first) {
        number(cursor)
    } else {
        named(alloc, cursor, at)
    }
}

// A name, which stands at `at`.
fn named(alloc: Global, cursor: &mut Cursor<'_>, at: u32) -> Result<Operand, Unread>
    ensures { Reads (and_then (reading.read_name cursor.old.at cursor.old.rest.now) (λ n end rest. Some (Operand.Named at n, end, rest))) result cursor.new.at cursor.new.rest.now }
{
    let name = name(cursor)?;
    Ok(Operand::Named(at, units_of(alloc, name)?))
}

// The operands from here on that each follow a `+`, as many as `most` at most.
#[tactic(auto, unfolding(crate::specs::FormReading::read_more))]
fn more(alloc: Global, cursor: &mut Cursor<'_>, most: usize) -> Result<Items<Added>, Unread>
    ensures { Reads (reading.read_more most [] cursor.old.at cursor.old.rest.now) result cursor.new.at cursor.new.rest.now }
{
    let mut found = Items::new(alloc);
    for _turn in 0..most {
        if cursor.look() != b'+' {
            return Ok(found);
        }
        push_added(alloc, cursor, &mut found)?;
    }
    Ok(found)
}

fn push_added(
    alloc: Global,
    cursor: &mut Cursor<'_>,
    found: &mut Items<Added>,
) -> Result<(), Unread>
    requires { 0 < length cursor.old.rest.now }
    ensures { Adds found.old (and_then (reading.read_operand (cursor.old.at + 1) (drop 1 cursor.old.rest.now)) (λ o end rest. Some (record { plus = cursor.old.at; operand = o }, end, rest))) result found.new cursor.new.at cursor.new.rest.now }
{
    let plus = cursor.at();
    cursor.advance(1);
    let operand = operand(alloc, cursor)?;
    Ok(found.push(Added { plus, operand })?)
}

#[tactic(auto, unfolding(crate::specs::FormReading::read_value))]
fn value(alloc: Global, cursor: &mut Cursor<'_>) -> Result<Value, Unread>
    ensures { Reads (reading.read_value cursor.old.at cursor.old.rest.now) result cursor.new.at cursor.new.rest.now }
{
    let first = operand(alloc, cursor)?;
    let more = more(alloc, cursor, MOST_MORE)?;
    Ok(Value { first, more })
}

// The values from here on, with the parenthesis behind them.
#[tactic(auto, unfolding(crate::specs::FormReading::read_values))]
fn values(alloc: Global, cursor: &mut Cursor<'_>) -> Result<Items<Value>, Unread>
    ensures { Reads (reading.read_values (length cursor.old.rest.now) [] cursor.old.at cursor.old.rest.now) result cursor.new.at cursor.new.rest.now }
{
    let mut found = Items::new(alloc);
    for _turn in 0..cursor.left() {
        push_value(alloc, cursor, &mut found)?;
        if cursor.look() != b',' {
            return closed(cursor, found);
        }
        cursor.advance(1);
    }
    Err(Unread::Form)
}

fn push_value(
    alloc: Global,
    cursor: &mut Cursor<'_>,
    found: &mut Items<Value>,
) -> Result<(), Unread>
    ensures { Adds found.old (reading.read_value cursor.old.at cursor.old.rest.now) result found.new cursor.new.at cursor.new.rest.now }
{
    let value = value(alloc, cursor)?;
    Ok(found.push(value)?)
}

// The values, where a parenthesis comes next.
fn closed(cursor: &mut Cursor<'_>, found: Items<Value>) -> Result<Items<Value>, Unread>
    ensures { Reads (and_then (expect 41 cursor.old.at cursor.old.rest.now) (λ u end rest. Some (found, end, rest))) result cursor.new.at cursor.new.rest.now }
{
    cursor.byte(b')')?;
    Ok(found)
}

// The arguments of a call, with the parenthesis behind them.
#[tactic(auto, unfolding(crate::specs::FormReading::read_arguments))]
fn arguments(alloc: Global, cursor: &mut Cursor<'_>) -> Result<Items<Value>, Unread>
    ensures { Reads (reading.read_arguments cursor.old.at cursor.old.rest.now) result cursor.new.at cursor.new.rest.now }
{
    if cursor.look() == b')' {
        cursor.advance(1);
        Ok(Items::new(alloc))
    } else {
        values(alloc, cursor)
    }
}

// A declaration behind its `var`, which stands at `at`.
#[tactic(auto, unfolding(crate::specs::FormReading::read_declaration))]
fn declaration(alloc: Global, cursor: &mut Cursor<'_>, at: u32) -> Result<Statement, Unread>
    requires { cursor.old.at ≡ at + 4 }
    ensures { Reads (reading.read_declaration at cursor.old.rest.now) result cursor.new.at cursor.new.rest.now }
{
    let name = name(cursor)?;
    declared(alloc, cursor, at, name)
}

// The rest of a declaration behind its name.
fn declared(
    alloc: Global,
    cursor: &mut Cursor<'_>,
    at: u32,
    name: &[u8],
) -> Result<Statement, Unread>
    ensures { Reads (and_then (expect 61 cursor.old.at cursor.old.rest.now) (λ u b zs. and_then (reading.read_value b zs) (λ v c ws. and_then (expect 59 c ws) (λ u end rest. Some (Statement.Declares at name.now v, end, rest))))) result cursor.new.at cursor.new.rest.now }
{
    cursor.byte(b'=')?;
    let value = value(alloc, cursor)?;
    declares(alloc, cursor, at, name, value)
}

fn declares(
    alloc: Global,
    cursor: &mut Cursor<'_>,
    at: u32,
    name: &[u8],
    value: Value,
) -> Result<Statement, Unread>
    ensures { Reads (and_then (expect 59 cursor.old.at cursor.old.rest.now) (λ u end rest. Some (Statement.Declares at name.now value, end, rest))) result cursor.new.at cursor.new.rest.now }
{
    let Ok(name) = units_of(alloc, name) else {
        return Err(Unread::Memory(AllocError));
    };
    ended(cursor, Statement::Declares(at, name, value))
}

// The statement, where a semicolon comes next.
fn ended(cursor: &mut Cursor<'_>, statement: Statement) -> Result<Statement, Unread>
    ensures { Reads (and_then (expect 59 cursor.old.at cursor.old.rest.now) (λ u end rest. Some (statement, end, rest))) result cursor.new.at cursor.new.rest.now }
{
    cursor.byte(b';')?;
    Ok(statement)
}

#[tactic(auto, unfolding(crate::specs::FormReading::read_call))]
fn call(alloc: Global, cursor: &mut Cursor<'_>) -> Result<Statement, Unread>
    ensures { Reads (reading.read_call cursor.old.at cursor.old.rest.now) result cursor.new.at cursor.new.rest.now }
{
    let at = cursor.at();
    let name = name(cursor)?;
    called(alloc, cursor, at, name)
}

// The rest of a call behind its name, which stands at `at`.
fn called(alloc: Global, cursor: &mut Cursor<'_>, at: u32, name: &[u8]) -> Result<Statement, Unread>
    ensures { Reads (and_then (expect 40 cursor.old.at cursor.old.rest.now) (λ u b zs. and_then (reading.read_arguments b zs) (λ vs c ws. and_then (expect 59 c ws) (λ u end rest. Some (Statement.Calls at name.now vs, end, rest))))) result cursor.new.at cursor.new.rest.now }
{
    cursor.byte(b'(')?;
    let arguments = arguments(alloc, cursor)?;
    let Ok(name) = units_of(alloc, name) else {
        return Err(Unread::Memory(AllocError));
    };
    ended(cursor, Statement::Calls(at, name, arguments))
}

#[tactic(auto, unfolding(crate::specs::FormReading::read_statement))]
fn statement(alloc: Global, cursor: &mut Cursor<'_>) -> Result<Statement, Unread>
    ensures { Reads (reading.read_statement cursor.old.at cursor.old.rest.now) result cursor.new.at cursor.new.rest.now }
{
    let at = cursor.at();
    if cursor.begins(b"var ") {
        cursor.advance(4);
        declaration(alloc, cursor, at)
    } else {
        call(alloc, cursor)
    }
}

/// The statements of a whole source.
#[tactic(auto, unfolding(crate::specs::FormReading::read_statements))]
pub(crate) fn statements(alloc: Global, cursor: &mut Cursor<'_>) -> Result<Items<Statement>, Unread>
    ensures { Finds (reading.read_statements (suc (length cursor.old.rest.now)) [] cursor.old.at cursor.old.rest.now) result }
{
    let mut found = Items::new(alloc);
    for _turn in 0..cursor.left() + 1 {
        if cursor.left() == 0 {
            return Ok(found);
        }
        push_statement(alloc, cursor, &mut found)?;
    }
    Err(Unread::Form)
}

fn push_statement(
    alloc: Global,
    cursor: &mut Cursor<'_>,
    found: &mut Items<Statement>,
) -> Result<(), Unread>
    ensures { Adds found.old (reading.read_statement cursor.old.at cursor.old.rest.now) result found.new cursor.new.at cursor.new.rest.now }
{
    let statement = statement(alloc, cursor)?;
    Ok(found.push(statement)?)
}

// The name of a function.
#[tactic(auto, unfolding(crate::specs::FormReading::read_function))]
fn function<'a>(cursor: &mut Cursor<'a>) -> Result<&'a [u8], Unread>
    ensures { ReadsBytes (reading.read_function cursor.old.at cursor.old.rest.now) result cursor.new.at cursor.new.rest.now }
{
    cursor.word(b"function ")?;
    let name = name(cursor)?;
    with_parameter(cursor, name)
}

fn push_function(
    alloc: Global,
    cursor: &mut Cursor<'_>,
    found: &mut Items<Units>,
) -> Result<(), Unread>
    ensures { Adds found.old (reading.read_function cursor.old.at cursor.old.rest.now) result found.new cursor.new.at cursor.new.rest.now }
{
    let name = function(cursor)?;
    let name = units_of(alloc, name)?;
    Ok(found.push(name)?)
}

// The name of a function, where its parameter and its body come next.
fn with_parameter<'a>(cursor: &mut Cursor<'a>, function: &'a [u8]) -> Result<&'a [u8], Unread>
    ensures { ReadsBytes (and_then (expect 40 cursor.old.at cursor.old.rest.now) (λ u c ws. and_then (reading.read_name c ws) (λ p d vs. and_then (expect_word (codes "){}") d vs) (λ u end rest. Some (function.now, end, rest))))) result cursor.new.at cursor.new.rest.now }
{
    cursor.byte(b'(')?;
    let _parameter = name(cursor)?;
    cursor.word(b"){}")?;
    Ok(function)
}

/// The functions of a whole file of externs.
#[tactic(auto, unfolding(crate::specs::FormReading::read_functions))]
pub(crate) fn functions(alloc: Global, cursor: &mut Cursor<'_>) -> Result<Items<Units>, Unread>
    ensures { Finds (reading.read_functions (suc (length cursor.old.rest.now)) [] cursor.old.at cursor.old.rest.now) result }
{
    let mut found = Items::new(alloc);
    for _turn in 0..cursor.left() + 1 {
        if cursor.left() == 0 {
            return Ok(found);
        }
        push_function(alloc, cursor, &mut found)?;
    }
    Err(Unread::Form)
}

// What annotations say of functions and variables.
#![tactic(auto, unfolding(cc_meaning::specs::Shapes::tables_of, cc_meaning::specs::Typed::doc_at))]

ghost use Rattle.std.specs.Prelude.{◌≡◌, ◌&&◌, not, slice_get, Some};
ghost use Rattle.std.specs.Option.{option_copied};
ghost use Rattle.cc_meaning.specs.Shapes.{tables_of};
ghost use Rattle.cc_meaning.specs.Store.{flat_option};
ghost use Rattle.cc_meaning.specs.Typed as Typed;
ghost use Rattle.cc_conform.specs.Bridge.{variable_of};

use crate::act::Variable;
use cc_ast::program::Program;
use cc_ast::tables::{SiteDoc, TypeSet};

// The doc with this number.
fn doc_at(program: &Program, number: u32) -> Option<&SiteDoc>
    ensures { option_copied result ≡ Typed.doc_at (tables_of program.now) (Some number) }
{
    program.docs.get().get(number as usize)
}

// The doc of a function.
fn function_doc(program: &Program, function: u32) -> Option<&SiteDoc>
    ensures { option_copied result ≡ Typed.function_doc (tables_of program.now) function }
{
    match program.scopes.get(function as usize) {
        Some(scope) => doc_at(program, scope.doc),
        None => None,
    }
}

/// The type of a value by the doc with this number.
#[tactic(auto, unfolding(cc_meaning::specs::Typed::value_in))]
pub fn value_type(program: &Program, number: u32) -> Option<&TypeSet>
    ensures { option_copied result ≡ Typed.value_in (Typed.doc_at (tables_of program.now) (Some number)) }
{
    match doc_at(program, number) {
        Some(doc) => doc.value.as_ref(),
        None => None,
    }
}

/// The type of what a function gives.
#[tactic(auto, unfolding(cc_meaning::specs::Typed::result_in))]
pub fn result_type(program: &Program, function: u32) -> Option<&TypeSet>
    ensures { option_copied result ≡ Typed.result_in (Typed.function_doc (tables_of program.now) function) }
{
    match function_doc(program, function) {
        Some(doc) => doc.result.as_ref(),
        None => None,
    }
}

/// The type of a function's `this`.
#[tactic(auto, unfolding(cc_meaning::specs::Typed::receiver_in))]
pub(crate) fn receiver_type(program: &Program, function: u32) -> Option<&TypeSet>
    ensures { option_copied result ≡ Typed.receiver_in (Typed.function_doc (tables_of program.now) function) }
{
    match function_doc(program, function) {
        Some(doc) => doc.receiver.as_ref(),
        None => None,
    }
}

/// The types of a function's parameters.
#[tactic(auto, unfolding(cc_meaning::specs::Typed::params_in))]
pub fn param_types(program: &Program, function: u32) -> &[Option<TypeSet>]
    ensures { result.now ≡ Typed.params_in (Typed.function_doc (tables_of program.now) function) }
{
    match function_doc(program, function) {
        Some(doc) => doc.params.as_slice(),
        None => &[],
    }
}

// How many parameters a scope has.
fn param_count(program: &Program, scope: u32) -> u32
    ensures { result ≡ Typed.head_params (slice_get (tables_of program.now).heads scope) }
{
    match program.scopes.get(scope as usize) {
        Some(scope) => scope.params,
        None => 0,
    }
}

// The doc of a global.
fn global_doc(program: &Program, global: u32) -> Option<&SiteDoc>
    ensures { option_copied result ≡ Typed.variable_doc (tables_of program.now) (Typed.global global) }
{
    match program.globals.get().get(global as usize) {
        Some(info) => doc_at(program, info.doc),
        None => None,
    }
}

// The doc of a declared name of a scope, by its place among the scope's own.
fn declared_doc(program: &Program, scope: u32, number: u32) -> Option<&SiteDoc>
    ensures { option_copied result ≡ Typed.doc_at (tables_of program.now) (slice_get (Typed.vars_in (Typed.function_doc (tables_of program.now) scope)) number) }
{
    match function_doc(program, scope) {
        Some(doc) => match doc.vars.get(number as usize) {
            Some(declared) => doc_at(program, *declared),
            None => None,
        },
        None => None,
    }
}

// The doc of a place of a scope that is no parameter.
fn local_doc(program: &Program, scope: u32, place: u32) -> Option<&SiteDoc>
    ensures { option_copied result ≡ Typed.variable_doc (tables_of program.now) (Typed.local scope place) }
{
    let count = param_count(program, scope);
    declared_doc(program, scope, place.saturating_sub(count))
}

// The doc of a flat path.
fn path_doc(program: &Program, global: u32, number: u32) -> Option<&SiteDoc>
    ensures { option_copied result ≡ Typed.variable_doc (tables_of program.now) (Typed.flat global number) }
{
    match program.globals.get().get(global as usize) {
        Some(info) => match info.flat.get(number as usize) {
            Some(path) => doc_at(program, path.doc),
            None => None,
        },
        None => None,
    }
}

// The doc of a variable that is no parameter.
fn variable_doc(program: &Program, variable: Variable) -> Option<&SiteDoc>
    ensures { option_copied result ≡ Typed.variable_doc (tables_of program.now) (variable_of variable) }
{
    match variable {
        Variable::Global(global) => global_doc(program, global),
        Variable::Local { scope, place } => local_doc(program, scope, place),
        Variable::Flat { global, number } => path_doc(program, global, number),
    }
}

#[tactic(auto, unfolding(cc_meaning::specs::Typed::is_param))]
fn is_param(program: &Program, variable: Variable) -> bool
    ensures { result ≡ Typed.is_param (tables_of program.now) (variable_of variable) }
{
    match variable {
        Variable::Local { scope, place } => place < param_count(program, scope),
        _ => false,
    }
}

// The type of a parameter by its place.
fn place_type(program: &Program, scope: u32, place: u32) -> Option<&TypeSet>
    ensures { option_copied result ≡ flat_option (slice_get (Typed.params_in (Typed.function_doc (tables_of program.now) scope)) place) }
{
    match sqlite_items::at(param_types(program, scope), place as usize) {
        Some(wanted) => wanted.as_ref(),
        None => None,
    }
}

// The type of a parameter.
#[tactic(auto, unfolding(cc_meaning::specs::Typed::param_type))]
fn param_type(program: &Program, variable: Variable) -> Option<&TypeSet>
    ensures { option_copied result ≡ Typed.param_type (tables_of program.now) (variable_of variable) }
{
    match variable {
        Variable::Local { scope, place } => place_type(program, scope, place),
        _ => None,
    }
}

// The type of a variable that is no parameter.
#[tactic(auto, unfolding(cc_meaning::specs::Typed::value_in))]
fn declared_type(program: &Program, variable: Variable) -> Option<&TypeSet>
    ensures { option_copied result ≡ Typed.value_in (Typed.variable_doc (tables_of program.now) (variable_of variable)) }
{
    match variable_doc(program, variable) {
        Some(doc) => doc.value.as_ref(),
        None => None,
    }
}

/// The type of a variable.
#[tactic(auto, unfolding(cc_meaning::specs::Typed::variable_type, cc_meaning::specs::Monad::pick))]
pub fn variable_type(program: &Program, variable: Variable) -> Option<&TypeSet>
    ensures { option_copied result ≡ Typed.variable_type (tables_of program.now) (variable_of variable) }
{
    if is_param(program, variable) {
        param_type(program, variable)
    } else {
        declared_type(program, variable)
    }
}

// Whether a variable is marked `@const` or `@define`.
#[tactic(auto, unfolding(cc_meaning::specs::Typed::settled_in))]
fn is_marked(program: &Program, variable: Variable) -> bool
    ensures { result ≡ Typed.settled_in (Typed.variable_doc (tables_of program.now) (variable_of variable)) }
{
    match variable_doc(program, variable) {
        Some(doc) => doc.constant || doc.define,
        None => false,
    }
}

/// Whether a variable is read only after it is set.
#[tactic(auto, unfolding(cc_meaning::specs::Typed::is_settled))]
pub(crate) fn is_settled(program: &Program, variable: Variable) -> bool
    ensures { result ≡ Typed.is_settled (tables_of program.now) (variable_of variable) }
{
    !is_param(program, variable) && is_marked(program, variable)
}

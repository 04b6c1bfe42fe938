// The functions of the base chunk.

ghost use Rattle.std.specs.Prelude.{◌≡◌, ◌<◌, ◌+◌, ◌++◌, IfOk, OnOk, ℕ};
ghost use Rattle.std.specs.String.{string_bytes};
ghost use Rattle.cc_gen.specs.Draws.{state};
ghost use Rattle.cc_gen.specs.Texts.{draws_before, first_kind_by, kind_by, kind, function_line};
ghost use Rattle.cc_gen.specs.Texts as Texts;

use crate::draws::Draws;
use std::alloc::{AllocError, Global};

/// What a function of the base chunk does: it adds its number to its argument, it calls the
/// earlier function with a number, it lowers a large argument, or it builds an object of a class
/// of its own and asks that.
#[derive(Clone, Copy)]
pub(crate) enum Kind {
    Adds,
    Calls(u32),
    Lowers,
    Builds,
}

/// The functions up to `size`, each on a line.
pub(crate) fn base_text(alloc: Global, draws: &mut Draws, size: u32) -> Result<Vec<u8>, AllocError>
    ensures text { IfOk result (λ text. text.items ≡ Texts.base_text draws.old.state size) }
    ensures state { OnOk result (draws.new.state ≡ state draws.old.state (draws_before size)) }
{
    let mut text = String::new(alloc);
    for i in 0..size {
        let kind = draw_kind(draws, i);
        push_function(&mut text, i, kind)?;
    }
    Ok(text.into_bytes())
}

/// The kind of function `i`, whose draws are the next ones.
fn draw_kind(draws: &mut Draws, i: u32) -> Kind
    ensures kind { (seed : ℕ) → draws.old.state ≡ state seed (draws_before i) → result ≡ kind seed i }
    ensures state { (seed : ℕ) → draws.old.state ≡ state seed (draws_before i) → draws.new.state ≡ state seed (draws_before (i + 1)) }
{
    let t = draws.draw(4);
    if i == 0 {
        return first_kind(t);
    }
    let earlier = draws.draw(i);
    later_kind(t, earlier)
}

#[tactic(auto, unfolding(crate::specs::Texts::first_kind_by))]
fn first_kind(t: u32) -> Kind
    ensures { result ≡ first_kind_by t }
{
    match t {
        0 | 1 => Kind::Adds,
        2 => Kind::Lowers,
        _ => Kind::Builds,
    }
}

#[tactic(auto, unfolding(crate::specs::Texts::kind_by))]
fn later_kind(t: u32, earlier: u32) -> Kind
    ensures { result ≡ kind_by t earlier }
{
    match t {
        0 => Kind::Adds,
        1 => Kind::Calls(earlier),
        2 => Kind::Lowers,
        _ => Kind::Builds,
    }
}

#[tactic(auto, unfolding(crate::specs::Texts::function_line))]
fn push_function(text: &mut String, i: u32, kind: Kind) -> Result<(), AllocError>
    ensures { OnOk result (string_bytes text.new ≡ string_bytes text.old ++ function_line i kind) }
{
    match kind {
        Kind::Adds => writeln!(text, "function f{i}(a){{return a+{i};}}"),
        Kind::Calls(j) => writeln!(text, "function f{i}(a){{return f{j}(a)+1;}}"),
        Kind::Lowers => writeln!(text, "function f{i}(a){{var b=a;if(b>10)b=b-10;return b;}}"),
        Kind::Builds => writeln!(
            text,
            "/** @constructor */function C{i}(a){{this.v=a;}}\
             C{i}.prototype.g=function(){{return this.v;}};\
             function f{i}(a){{return new C{i}(a).g();}}"
        ),
    }
}

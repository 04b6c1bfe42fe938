// Labels, and where a statement stands.

ghost use Rattle.std.specs.Prelude.{◌≡◌, ◌∷◌, IfOk};
ghost use Rattle.std.specs.Option.{option_copied};
ghost use Rattle.cc_grammar.specs.Grammar as grammar;
ghost use Rattle.cc_grammar.specs.Reading as reading;
ghost use Rattle.cc_cursor.specs.Shown as shown;

use crate::context::Context;
use crate::lexeme::{Kind, Lexeme};
use cc_lexer::piece::Piece;
use std::alloc::{AllocError, Global};

/// Whether a name is among labels.
pub fn is_among(name: &Piece<'_>, labels: &[&Piece<'_>]) -> bool
    ensures { result ≡ grammar.is_among name.now (shown.labels labels.now) }
{
    for label in labels {
        if name.is(label.text()) {
            return true;
        }
    }
    false
}

/// Whether there is a label.
pub fn has_any(labels: &[&Piece<'_>]) -> bool
    ensures { result ≡ reading.is_some_label (shown.labels labels.now) }
{
    match labels.split_first() {
        Some(_) => true,
        None => false,
    }
}

/// The label of a jump, on the same line.
pub fn label_of<'a>(lexeme: Lexeme<'a>) -> Option<&'a Piece<'a>>
    ensures { option_copied result ≡ reading.label_of (shown.lexeme lexeme.entry) }
{
    match lexeme.kind {
        Kind::Name(name) if !lexeme.after_line => Some(name),
        _ => None,
    }
}

/// The labels of a loop: those right before it, and those of the loops around it.
#[tactic(auto, using(crate::proofs::LabelLemmas::labels_shown))]
pub fn loop_labels<'a>(
    alloc: Global,
    context: Context<'a>,
) -> Result<Vec<&'a Piece<'a>>, AllocError>
    ensures { IfOk result (λ ls. shown.labels ls.items ≡ (grammar.in_loop (shown.context context.entry)).loops) }
{
    let mut labels = Vec::new(alloc);
    labels.extend_from_slice(context.own)?;
    labels.extend_from_slice(context.loops)?;
    Ok(labels)
}

/// A label before others.
#[tactic(auto, using(crate::proofs::LabelLemmas::labels_shown))]
pub fn with_label<'a>(
    alloc: Global,
    name: &'a Piece<'a>,
    labels: &[&'a Piece<'a>],
) -> Result<Vec<&'a Piece<'a>>, AllocError>
    ensures { IfOk result (λ ls. shown.labels ls.items ≡ name.now ∷ shown.labels labels.now) }
{
    let mut all = Vec::new(alloc);
    all.push(name)?;
    all.extend_from_slice(labels)?;
    Ok(all)
}

impl<'a> Context<'a> {
    /// At the top of a program.
    pub fn of_program() -> Context<'a>
        ensures { shown.context result ≡ grammar.of_program }
    {
        Context {
            declares: true,
            returns: false,
            continues: false,
            breaks: false,
            labels: &[],
            loops: &[],
            own: &[],
        }
    }

    /// Inside a block, or a body that is no loop's.
    pub fn inside(self) -> Context<'a>
        ensures { shown.context result ≡ grammar.inside (shown.context self.entry) }
    {
        Context {
            declares: false,
            own: &[],
            ..self
        }
    }

    /// Inside a loop that has these labels.
    pub fn in_loop<'b>(self, loops: &'b [&'b Piece<'b>]) -> Context<'b>
    where
        'a: 'b,
        requires { shown.labels loops.now ≡ (grammar.in_loop (shown.context self)).loops }
        ensures { shown.context result ≡ grammar.in_loop (shown.context self.entry) }
    {
        Context {
            declares: false,
            continues: true,
            breaks: true,
            loops,
            own: &[],
            ..self
        }
    }

    /// Inside a `switch`.
    pub fn in_switch(self) -> Context<'a>
        ensures { shown.context result ≡ grammar.in_switch (shown.context self.entry) }
    {
        Context {
            declares: false,
            breaks: true,
            own: &[],
            ..self
        }
    }

    /// Behind a label.
    pub fn labelled<'b>(
        self,
        name: &Piece<'_>,
        labels: &'b [&'b Piece<'b>],
        own: &'b [&'b Piece<'b>],
    ) -> Context<'b>
    where
        'a: 'b,
        requires labels { shown.labels labels.now ≡ name.now ∷ shown.labels self.labels.now }
        requires own { shown.labels own.now ≡ name.now ∷ shown.labels self.own.now }
        ensures { shown.context result ≡ grammar.labelled name.now (shown.context self.entry) }
    {
        Context {
            declares: false,
            labels,
            own,
            ..self
        }
    }
}

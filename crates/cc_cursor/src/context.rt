// Where a statement stands.

ghost use Rattle.std.specs.Prelude.{◌≡◌};
ghost use Rattle.cc_grammar.specs.Grammar as grammar;
ghost use Rattle.cc_cursor.specs.Shown as shown;

use cc_lexer::piece::Piece;

/// Whether a function declaration may stand there, whether a function encloses it, a loop, and a
/// loop or `switch`; the labels that are open, those of the enclosing loops, and those right before
/// it.
#[derive(Clone, Copy)]
pub struct Context<'a> {
    pub declares: bool,
    pub returns: bool,
    pub continues: bool,
    pub breaks: bool,
    pub labels: &'a [&'a Piece<'a>],
    pub loops: &'a [&'a Piece<'a>],
    pub own: &'a [&'a Piece<'a>],
}

impl<'a> Context<'a> {
    /// In the body of a function.
    pub fn of_function() -> Context<'a>
        ensures { shown.context result ≡ grammar.of_function }
    {
        Context {
            declares: true,
            returns: true,
            continues: false,
            breaks: false,
            labels: &[],
            loops: &[],
            own: &[],
        }
    }
}

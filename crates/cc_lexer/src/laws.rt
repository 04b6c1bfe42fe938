// Laws of the tokens of a text.

ghost use Rattle.cc_lexer.specs.Laws as laws;

/// A text has one list of tokens, and one refusal where no token begins.
pub fn one_list_of_tokens()
    ensures { laws.OneList }
{}

/// A text is the texts of its tokens, each the longest, with white space, comments and line ends
/// between them, up to the first character that begins no token.
pub fn text_of_tokens()
    ensures { laws.IsTheirTexts }
{}

// Reserved words.

ghost use Rattle.std.specs.Prelude.{◌≡◌, ℕ, List, slice_index};
ghost use Rattle.cc_lexer.specs.Words as spec;

/// A reserved word (ECMA-262 5.1, 7.6.1), or `null`, `true` or `false`.
#[derive(Clone, Copy)]
pub enum Word {
    Break,
    Case,
    Catch,
    Class,
    Const,
    Continue,
    Debugger,
    Default,
    Delete,
    Do,
    Else,
    Enum,
    Export,
    Extends,
    False,
    Finally,
    For,
    Function,
    If,
    Import,
    In,
    Instanceof,
    New,
    Null,
    Return,
    Super,
    Switch,
    This,
    Throw,
    True,
    Try,
    Typeof,
    Var,
    Void,
    While,
    With,
}

/// How a word is spelled.
#[tactic(auto, unfolding(crate::specs::Words::spelling))]
pub fn spelling(word: Word) -> &'static str
    ensures { result.now ≡ spec.spelling word }
{
    match word {
        Word::Break => "break",
        Word::Case => "case",
        Word::Catch => "catch",
        Word::Class => "class",
        Word::Const => "const",
        Word::Continue => "continue",
        Word::Debugger => "debugger",
        Word::Default => "default",
        Word::Delete => "delete",
        Word::Do => "do",
        Word::Else => "else",
        Word::Enum => "enum",
        Word::Export => "export",
        Word::Extends => "extends",
        Word::False => "false",
        Word::Finally => "finally",
        Word::For => "for",
        Word::Function => "function",
        Word::If => "if",
        Word::Import => "import",
        Word::In => "in",
        Word::Instanceof => "instanceof",
        Word::New => "new",
        Word::Null => "null",
        Word::Return => "return",
        Word::Super => "super",
        Word::Switch => "switch",
        Word::This => "this",
        Word::Throw => "throw",
        Word::True => "true",
        Word::Try => "try",
        Word::Typeof => "typeof",
        Word::Var => "var",
        Word::Void => "void",
        Word::While => "while",
        Word::With => "with",
    }
}

// The words that begin with a byte.
fn beginning(first: u8) -> &'static [Word]
    ensures { (text : List ℕ) → slice_index text 0 ≡ first → spec.spelled_in result.now text ≡ spec.word_of text }
{
    match first {
        b'b' => &[Word::Break],
        b'c' => &[
            Word::Case,
            Word::Catch,
            Word::Class,
            Word::Const,
            Word::Continue,
        ],
        b'd' => &[Word::Debugger, Word::Default, Word::Delete, Word::Do],
        b'e' => &[Word::Else, Word::Enum, Word::Export, Word::Extends],
        b'f' => &[Word::False, Word::Finally, Word::For, Word::Function],
        b'i' => &[Word::If, Word::Import, Word::In, Word::Instanceof],
        b'n' => &[Word::New, Word::Null],
        b'r' => &[Word::Return],
        b's' => &[Word::Super, Word::Switch],
        b't' => &[Word::This, Word::Throw, Word::True, Word::Try, Word::Typeof],
        b'v' => &[Word::Var, Word::Void],
        b'w' => &[Word::While, Word::With],
        _ => &[],
    }
}

fn spelled_in(words: &[Word], text: &str) -> Option<Word>
    ensures { result ≡ spec.spelled_in words.now text.now }
{
    for word in words {
        if spelling(*word) == text {
            return Some(*word);
        }
    }
    None
}

/// The word of this spelling.
pub(crate) fn word_of(text: &str) -> Option<Word>
    ensures { result ≡ spec.word_of text.now }
{
    match text.as_bytes().first() {
        Some(first) => spelled_in(beginning(*first), text),
        None => None,
    }
}

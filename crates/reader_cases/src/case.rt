// Lines.

ghost use Rattle.std.specs.Prelude.{◌≤◌, length};

use crate::file::{Part, push_read};
use crate::generated::{Shown, push_asked};
use crate::lexed::{Use, push_lexed};
use crate::page::Page;
use crate::texts::{Call, push_text};
use crate::written::bytes_of;
use std::alloc::Global;

// How many bytes are read at most, as the calls require it.
const MOST: usize = 16_777_216;

// What a case is, by what it takes: a text, bytes whose tokens are used, the bytes of a file, or a
// seed and a size.
#[derive(Clone, Copy)]
enum Case {
    Text(Call),
    Lexed(Use),
    File(Part),
    Generated(Shown),
}

static CASES: [(&str, Case); 15] = [
    ("units", Case::Text(Call::Units)),
    ("escape", Case::Text(Call::Escape)),
    ("whole", Case::Text(Call::Whole)),
    ("type", Case::Text(Call::Type)),
    ("doc", Case::Text(Call::Doc)),
    ("tokens", Case::Lexed(Use::Tokens)),
    ("names", Case::Lexed(Use::Names)),
    ("list", Case::Lexed(Use::List)),
    ("file", Case::Lexed(Use::File)),
    ("reads", Case::File(Part::Nothing)),
    ("tree", Case::File(Part::Shape)),
    ("places", Case::File(Part::Places)),
    ("comments", Case::File(Part::Comments)),
    ("generate", Case::Generated(Shown::Texts)),
    ("bytes", Case::Generated(Shown::Count)),
];

fn case_of(word: &str) -> Option<Case> {
    for (known, case) in CASES.iter() {
        if *known == word {
            return Some(*case);
        }
    }
    None
}

// What is answered; false where the bytes are wrong for the case.
fn push_answer(alloc: Global, page: &mut Page, case: Case, bytes: &[u8]) -> bool
    requires { length bytes.now ≤ 16777216 }
{
    match case {
        Case::Text(call) => push_text(alloc, page, call, bytes),
        Case::Lexed(used) => push_lexed(alloc, page, used, bytes),
        Case::File(part) => push_read(alloc, page, part, bytes),
        Case::Generated(shown) => push_asked(alloc, page, shown, bytes),
    }
}

fn push_case(alloc: Global, page: &mut Page, line: &str) -> bool {
    let (word, text) = line.split_once(' ').unwrap_or((line, ""));
    let Some(case) = case_of(word) else {
        return false;
    };
    match bytes_of(alloc, text) {
        Some(bytes) if bytes.len() <= MOST => push_answer(alloc, page, case, &bytes),
        _ => false,
    }
}

/// A line and what is answered to it; false where it is no case.
pub(crate) fn push_line(alloc: Global, page: &mut Page, line: &str) -> bool {
    page.put(line);
    let is_right = line.is_empty() || line.starts_with('#') || push_case(alloc, page, line);
    if !is_right {
        page.clear();
        page.put("? ");
        page.put(line);
    }
    page.put("\n");
    is_right
}

// Files that are read.

ghost use Rattle.std.specs.Prelude.{◌≤◌, length};

use crate::page::Page;
use crate::places::push_places;
use crate::refusal::{push_place, push_refusal};
use crate::shape::push_body;
use cc_stmt::{Note, Tree, read_source};
use std::alloc::Global;

/// What is shown of a file.
#[derive(Clone, Copy)]
pub(crate) enum Part {
    Nothing,
    Shape,
    Places,
    Comments,
}

fn push_note(page: &mut Page, note: &Note) {
    push_place(page, note.place);
    page.put(">");
    push_place(page, note.next);
    page.put(" ");
    page.units(&note.text);
    page.put("; ");
}

// Each annotation comment with its place and the next token's, and behind the bar the licences.
fn push_comments(page: &mut Page, tree: &Tree) {
    for note in tree.docs.iter() {
        push_note(page, note);
    }
    page.put("|");
    for licence in tree.licences.iter() {
        page.put(" ");
        page.units(licence);
        page.put(";");
    }
}

fn push_part(page: &mut Page, tree: &Tree, part: Part) {
    match part {
        Part::Nothing => page.put("ok"),
        Part::Shape => push_body(page, &tree.body),
        Part::Places => push_places(page, &tree.body),
        Part::Comments => push_comments(page, tree),
    }
}

/// What is shown of the file that has these bytes, or what is refused. It is true, as no
/// bytes are wrong for it.
pub(crate) fn push_read(alloc: Global, page: &mut Page, part: Part, bytes: &[u8]) -> bool
    requires { length bytes.now ≤ 16777216 }
{
    page.row();
    match read_source(alloc, bytes, 7) {
        Ok(tree) => push_part(page, &tree, part),
        Err(refusal) => push_refusal(page, &refusal),
    }
    true
}

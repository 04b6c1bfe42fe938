// The ancestors of a class, found without memory of the heap.

ghost use Rattle.std.specs.Prelude.{◌≡◌, ◌≢◌, ℕ, ◌+◌, ◌<◌, ◌≤◌, length, IsTrue, ◌↔◌, Some};
ghost use Rattle.cc_types.specs.Types.{Ancestor, parents_of, reaches};
ghost use Rattle.cc_types.specs.Marks.{opened, opened_all, mark_at, is_unseen, NoneOpenBelow};

use cc_ast::tables::Class;

/// What a search knows of a class: nothing, that it is an ancestor, or that its parents are seen
/// too.
#[derive(Clone, Copy)]
pub(crate) enum Mark {
    Unseen,
    Open,
    Done,
}

// Opens an unseen class, and answers the new bound below which none is open.
fn open_class(marks: &mut [Mark], class: u32, low: usize) -> usize
    ensures marks { marks.new ≡ opened marks.old class }
    ensures low { NoneOpenBelow low marks.old → NoneOpenBelow result marks.new }
    ensures less { result ≤ low }
{
    let at = class as usize;
    if at >= marks.len() {
        return low;
    }
    match marks[at] {
        Mark::Unseen => {
            marks[at] = Mark::Open;
            low.min(at)
        }
        _ => low,
    }
}

// Opens the classes that a class extends or implements itself.
fn open_parents(class: &Class, marks: &mut [Mark], low: usize) -> usize
    ensures marks { marks.new ≡ opened_all marks.old (parents_of (Some class.now)) }
    ensures low { NoneOpenBelow low marks.old → NoneOpenBelow result marks.new }
    ensures less { result ≤ low }
{
    let mut low = low;
    if let Some(parent) = class.extends {
        low = open_class(marks, parent, low);
    }
    open_each(class.implements.as_slice(), marks, low)
}

fn open_each(parents: &[u32], marks: &mut [Mark], low: usize) -> usize
    ensures marks { marks.new ≡ opened_all marks.old parents.now }
    ensures low { NoneOpenBelow low marks.old → NoneOpenBelow result marks.new }
    ensures less { result ≤ low }
{
    let mut low = low;
    for parent in parents {
        low = open_class(marks, *parent, low);
    }
    low
}

// The first open class from a place on, or their number.
fn first_open(marks: &[Mark], from: usize) -> usize
    requires { from ≤ length marks.now }
    ensures within { result ≤ length marks.now }
    ensures passed { NoneOpenBelow from marks.now → NoneOpenBelow result marks.now }
    ensures found { result < length marks.now → mark_at marks.now result ≡ Mark.Open }
{
    let mut at = from;
    while at < marks.len() {
        if let Mark::Open = marks[at] {
            return at;
        }
        at += 1;
    }
    at
}

// Marks the ancestors of a class, and no other.
fn mark_ancestors(classes: &[Class], class: u32, marks: &mut [Mark])
    requires in_table { class < length classes.now }
    requires size { length marks.old ≡ length classes.now }
    requires clear { (x : ℕ) → mark_at marks.old x ≡ Mark.Unseen }
    ensures { (x : ℕ) → x < length classes.now → (mark_at marks.new x ≢ Mark.Unseen) ↔ Ancestor classes.now class x }
{
    let mut at = class as usize;
    marks[at] = Mark::Open;
    while at < marks.len() {
        marks[at] = Mark::Done;
        let low = open_parents(&classes[at], marks, at);
        at = first_open(marks, low);
    }
}

/// Whether `b` is an ancestor of `a`, in a table of at most `N` classes.
pub(crate) fn is_above<const N: usize>(classes: &[Class], a: u32, b: u32) -> bool
    requires size { length classes.now ≤ N }
    requires room { N ≤ 1048576 }
    requires a_in { a < length classes.now }
    requires b_in { b < length classes.now }
    ensures { IsTrue result ↔ Ancestor classes.now a b }
{
    let mut marks = [Mark::Unseen; N];
    let count = classes.len();
    let table = &mut marks[..count];
    mark_ancestors(classes, a, table);
    !matches!(marks[b as usize], Mark::Unseen)
}

/// The same by going up at most this many steps, in a table of any size. Files within the limit
/// on their bytes have no such table.
pub(crate) fn climbs(classes: &[Class], steps: usize, a: u32, b: usize) -> bool
    ensures { result ≡ reaches steps classes.now a b }
{
    if a as usize == b {
        return true;
    }
    if steps == 0 || a as usize >= classes.len() {
        return false;
    }
    let class = &classes[a as usize];
    let by_extends = match class.extends {
        Some(parent) => climbs(classes, steps - 1, parent, b),
        None => false,
    };
    if by_extends {
        return true;
    }
    for parent in class.implements.as_slice() {
        if climbs(classes, steps - 1, *parent, b) {
            return true;
        }
    }
    false
}

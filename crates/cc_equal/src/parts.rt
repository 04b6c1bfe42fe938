// Whether the small parts of trees are the same.
ghost use Rattle.std.specs.Prelude.{◌≡◌, ◌↔◌, IsTrue};

use cc_ast::operator::BinOp;
use cc_ast::tree::Key;
use cc_ast::units::Units;

pub(crate) fn same_units(a: &Units, b: &Units) -> bool
    ensures { IsTrue result ↔ (a.now ≡ b.now) }
{
    a.list.as_slice() == b.list.as_slice()
}

pub(crate) fn same_operator(a: Option<BinOp>, b: Option<BinOp>) -> bool
    ensures { IsTrue result ↔ (a ≡ b) }
{
    a == b
}

pub(crate) fn same_key(a: &Key, b: &Key) -> bool
    ensures { IsTrue result ↔ (a.now ≡ b.now) }
{
    match a {
        Key::Dotted(p) => is_dotted(*p, b),
        Key::Quoted(t) => is_quoted(t, b),
    }
}

fn is_dotted(p: u32, key: &Key) -> bool
    ensures { IsTrue result ↔ (Key.Dotted p ≡ key.now) }
{
    match key {
        Key::Dotted(q) => p == *q,
        Key::Quoted(_) => false,
    }
}

fn is_quoted(t: &Units, key: &Key) -> bool
    ensures { IsTrue result ↔ (Key.Quoted t.now ≡ key.now) }
{
    match key {
        Key::Dotted(_) => false,
        Key::Quoted(u) => same_units(t, u),
    }
}

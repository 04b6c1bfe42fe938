// Texts of the language.

use std::marker::Model;

/// A text of the language: its UTF-16 units (ECMA-262 5.1, 8.4).
#[derive(Debug, Drop)]
pub struct Units {
    pub list: Vec<u16>,
}

impl Model for Units {
    ghost use Rattle.std.specs.Prelude.{List, ℕ};

    ghost Value = { List ℕ };

    ghost view = { λ u. u.list.items };
}

// Trees in words: a literal or a variable stands alone, and an operator stands in brackets before
// its operands, as in `(+@9 1@1 local:0:0@2)`. `(.:PROP A)` is an access with a dot, `(call F)` a
// call without arguments and `(tick:PRICE A)` a price mark.

use crate::escapes::make_units;
use crate::marked::{make_ref, sited};
use crate::names::{binary_named, unary_named};
use crate::values::quoted;
use crate::words::number;
use cc_ast::operator::UnOp;
use cc_ast::tree::{Expr, Ref};
use sqlite_items::{Boxed, Items};
use std::alloc::Global;

/// What is read of trees from their last word on: those that are whole, the last one first, and for
/// each bracket that is closed how many there were before it.
#[derive(Drop)]
pub struct Trees {
    whole: Items<Boxed<Expr>>,
    marks: Vec<usize>,
}

// What stands before one operand.
#[derive(Clone, Copy)]
enum One {
    Member(u32),
    Tick(u64),
    Call,
    Unary(UnOp),
}

fn member(prop: &str) -> Option<One> {
    match number(prop) {
        Some(prop) => Some(One::Member(prop)),
        None => None,
    }
}

fn tick(price: &str) -> Option<One> {
    match price.parse::<u64>() {
        Ok(price) => Some(One::Tick(price)),
        Err(_) => None,
    }
}

fn one_named(name: &str) -> Option<One> {
    match name.split_once(':') {
        Some((".", prop)) => member(prop),
        Some(("tick", price)) => tick(price),
        Some(_) => None,
        None => match unary_named(name) {
            Some(op) => Some(One::Unary(op)),
            None => if name == "call" {
                Some(One::Call)
            } else {
                None
            },
        },
    }
}

fn make_one(alloc: Global, one: One, site: u32, a: Boxed<Expr>) -> Option<Boxed<Expr>> {
    let tree = match one {
        One::Member(prop) => Expr::Member(site, a, prop),
        One::Tick(price) => Expr::Tick(site, price, a),
        One::Call => Expr::Call(site, a, Items::new(alloc)),
        One::Unary(op) => Expr::Unary(site, op, a),
    };
    Boxed::new(alloc, tree).ok()
}

fn make_two(
    alloc: Global,
    name: &str,
    site: u32,
    a: Boxed<Expr>,
    b: Boxed<Expr>,
) -> Option<Boxed<Expr>> {
    let tree = match name {
        "and" => Expr::And(site, a, b),
        "or" => Expr::Or(site, a, b),
        _ => match binary_named(name) {
            Some(op) => Expr::Binary(site, op, a, b),
            None => return None,
        },
    };
    Boxed::new(alloc, tree).ok()
}

// The literals without a part of their own.
fn make_literal(alloc: Global, word: &str, site: u32) -> Option<Boxed<Expr>> {
    let tree = match word {
        "undefined" => Expr::Undefined(site),
        "null" => Expr::Null(site),
        "true" => Expr::Truth(site, true),
        "false" => Expr::Truth(site, false),
        _ => return None,
    };
    Boxed::new(alloc, tree).ok()
}

fn make_text(alloc: Global, text: &str, site: u32) -> Option<Boxed<Expr>> {
    match make_units(alloc, text) {
        Some(units) => Boxed::new(alloc, Expr::Text(site, units)).ok(),
        None => None,
    }
}

fn make_var(alloc: Global, variable: Ref, site: u32) -> Option<Boxed<Expr>> {
    Boxed::new(alloc, Expr::Var(site, variable)).ok()
}

fn make_whole(alloc: Global, word: &str, site: u32) -> Option<Boxed<Expr>> {
    match word.parse::<i64>() {
        Ok(z) => Boxed::new(alloc, Expr::Whole(site, z)).ok(),
        Err(_) => make_literal(alloc, word, site),
    }
}

// A text, a variable or another literal.
fn read_leaf(alloc: Global, word: &str) -> Option<Boxed<Expr>> {
    let Some((word, site)) = sited(word) else {
        return None;
    };
    if let Some(text) = quoted(word) {
        return make_text(alloc, text, site);
    }
    match make_ref(word) {
        Some(variable) => make_var(alloc, variable, site),
        None => make_whole(alloc, word, site),
    }
}

impl Trees {
    pub fn new(alloc: Global) -> Trees {
        Trees {
            whole: Items::new(alloc),
            marks: Vec::new(alloc),
        }
    }

    fn read_one(&mut self, alloc: Global, name: &str, site: u32) -> Option<Boxed<Expr>> {
        let Some(one) = one_named(name) else {
            return None;
        };
        match self.whole.pop() {
            Some(a) => make_one(alloc, one, site, a),
            None => None,
        }
    }

    fn read_two(&mut self, alloc: Global, name: &str, site: u32) -> Option<Boxed<Expr>> {
        let Some(a) = self.whole.pop() else {
            return None;
        };
        match self.whole.pop() {
            Some(b) => make_two(alloc, name, site, a, b),
            None => None,
        }
    }

    fn read_three(&mut self, alloc: Global, name: &str, site: u32) -> Option<Boxed<Expr>> {
        if name != "cond" {
            return None;
        }
        let Some(test) = self.whole.pop() else {
            return None;
        };
        let Some(yes) = self.whole.pop() else {
            return None;
        };
        match self.whole.pop() {
            Some(no) => Boxed::new(alloc, Expr::Cond(site, test, yes, no)).ok(),
            None => None,
        }
    }

    // Takes the operator of the bracket that was closed last.
    fn read_head(&mut self, alloc: Global, head: &str) -> Option<Boxed<Expr>> {
        let Some((name, site)) = sited(head) else {
            return None;
        };
        let Some(before) = self.marks.pop() else {
            return None;
        };
        match self.whole.len().saturating_sub(before) {
            1 => self.read_one(alloc, name, site),
            2 => self.read_two(alloc, name, site),
            3 => self.read_three(alloc, name, site),
            _ => None,
        }
    }

    // Closes the brackets behind a word.
    fn close(&mut self, brackets: usize) -> Option<()> {
        for _ in 0..brackets {
            if self.marks.push(self.whole.len()).is_err() {
                return None;
            }
        }
        Some(())
    }

    fn read_tree(&mut self, alloc: Global, inner: &str) -> Option<Boxed<Expr>> {
        match inner.strip_prefix('(') {
            Some(head) => self.read_head(alloc, head),
            None => read_leaf(alloc, inner),
        }
    }

    // Takes the word before those that are read.
    fn read_word(&mut self, alloc: Global, word: &str) -> Option<()> {
        let inner = word.trim_end_matches(')');
        if self.close(word.len().saturating_sub(inner.len())).is_none() {
            return None;
        }
        match self.read_tree(alloc, inner) {
            Some(tree) => self.whole.push(tree).ok(),
            None => None,
        }
    }

    fn read_words(&mut self, alloc: Global, words: &[&str]) -> Option<()> {
        for word in words.iter().rev() {
            if self.read_word(alloc, word).is_none() {
                return None;
            }
        }
        Some(())
    }

    /// The one tree that the words from a place on are.
    pub fn read(&mut self, alloc: Global, words: &[&str], from: usize) -> Option<Boxed<Expr>> {
        self.whole = Items::new(alloc);
        self.marks.clear();
        let read = match words.get(from..) {
            Some(words) => self.read_words(alloc, words),
            None => None,
        };
        if read.is_some() && self.whole.len() == 1 && self.marks.is_empty() {
            self.whole.pop()
        } else {
            None
        }
    }
}

// Generated input.

ghost use Rattle.std.specs.Prelude.{◌<◌};

use crate::page::Page;
use cc_gen::{Generated, generate};
use std::alloc::Global;

/// The texts, or the number of the bytes of all but the externs.
#[derive(Clone, Copy)]
pub(crate) enum Shown {
    Texts,
    Count,
}

// A seed and a size.
fn numbers(bytes: &[u8]) -> Option<(u64, u32)> {
    let text = str::from_utf8(bytes).ok()?;
    let (seed, size) = text.split_once(' ')?;
    Some((seed.parse::<u64>().ok()?, size.parse::<u32>().ok()?))
}

fn push_row(page: &mut Page, word: &str, text: &[u8]) {
    page.row();
    page.put(word);
    for byte in text {
        page.unit(u16::from(*byte));
    }
}

fn push_all(page: &mut Page, input: &Generated) {
    push_row(page, "externs ", input.externs.as_slice());
    push_row(page, "base ", input.base.as_slice());
    push_row(page, "x ", input.x.as_slice());
    push_row(page, "y ", input.y.as_slice());
}

fn push_count(page: &mut Page, input: &Generated) {
    page.row();
    let scripts = input.x.len().saturating_add(input.y.len());
    page.count(scripts.saturating_add(input.base.len()));
}

fn push_input(page: &mut Page, input: &Generated, shown: Shown) {
    match shown {
        Shown::Texts => push_all(page, input),
        Shown::Count => push_count(page, input),
    }
}

fn push_generated(alloc: Global, page: &mut Page, shown: Shown, seed: u64, size: u32)
    requires { 0 < size }
{
    match generate(alloc, seed, size) {
        Ok(input) => push_input(page, &input, shown),
        Err(_) => page.memory(),
    }
}

/// What is generated from a seed and a size; false where the bytes are none.
pub(crate) fn push_asked(alloc: Global, page: &mut Page, shown: Shown, bytes: &[u8]) -> bool {
    match numbers(bytes) {
        Some((seed, size)) if size > 0 => {
            push_generated(alloc, page, shown, seed, size);
            true
        }
        _ => false,
    }
}

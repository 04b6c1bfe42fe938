// The texts of cases.

mod escapes;

use crate::text::escapes::Escapes;
use std::alloc::Global;

/// What stands before the first space, and what stands behind it.
pub fn split_word(text: &str) -> (&str, &str) {
    text.split_once(' ').unwrap_or((text, ""))
}

/// A whole number in decimal digits.
pub fn number(text: &str) -> Option<u32> {
    text.parse::<u32>().ok()
}

/// The numbers of a line, with one space between them.
pub fn numbers_of(alloc: Global, line: &str) -> Option<Vec<u32>> {
    let mut numbers = Vec::new(alloc);
    for word in line.split(' ') {
        let Some(number) = number(word) else {
            return None;
        };
        if numbers.push(number).is_err() {
            return None;
        }
    }
    Some(numbers)
}

/// The bytes that a text stands for.
pub fn bytes_of(alloc: Global, text: &str) -> Option<Vec<u8>> {
    let mut escapes = Escapes::new(alloc);
    for piece in text.split('\\') {
        escapes.add(piece.as_bytes());
    }
    escapes.bytes()
}

/// The text of a case as a word of a command line.
fn word_of(alloc: Global, text: &str) -> Option<String> {
    let Some(bytes) = bytes_of(alloc, text) else {
        return None;
    };
    String::from_utf8(bytes).ok()
}

/// The words of a line, with one space between them; none where it is empty.
pub fn words_of(alloc: Global, line: &str) -> Option<Vec<String>> {
    let mut words = Vec::new(alloc);
    if line.is_empty() {
        return Some(words);
    }
    for text in line.split(' ') {
        if !push_word(alloc, &mut words, text) {
            return None;
        }
    }
    Some(words)
}

pub fn push_word(alloc: Global, words: &mut Vec<String>, text: &str) -> bool {
    match word_of(alloc, text) {
        Some(word) => words.push(word).is_ok(),
        None => false,
    }
}

// What is shown.

use std::alloc::Global;
use std::fmt::{Debug, Write};

/// Text that is to be printed. Where memory is wanting, some of it is left out, and it is no more whole.
#[derive(Drop)]
pub struct Page {
    text: String,
    whole: bool,
}

impl Page {
    pub fn new(alloc: Global) -> Page {
        Page {
            text: String::new(alloc),
            whole: true,
        }
    }

    /// The text, where it is whole.
    pub fn text(&self) -> Option<&str> {
        if self.whole {
            Some(self.text.as_str())
        } else {
            None
        }
    }

    pub fn add(&mut self, text: &str) {
        if self.text.push_str(text).is_err() {
            self.whole = false;
        }
    }

    pub fn add_number(&mut self, number: u64) {
        if write!(self.text, "{number}").is_err() {
            self.whole = false;
        }
    }

    /// Adds a value as `Debug` has it.
    pub fn add_value<T: Debug>(&mut self, value: &T) {
        if write!(self.text, "{value:?}").is_err() {
            self.whole = false;
        }
    }

    fn add_hex(&mut self, byte: u8) {
        if write!(self.text, "\\x{byte:02x}").is_err() {
            self.whole = false;
        }
    }

    fn add_char(&mut self, byte: u8) {
        if self.text.push(char::from(byte)).is_err() {
            self.whole = false;
        }
    }

    fn add_byte(&mut self, byte: u8) {
        let escape = escape_of(byte);
        if !escape.is_empty() {
            self.add(escape);
        } else if matches!(byte, 32..=126) {
            self.add_char(byte);
        } else {
            self.add_hex(byte);
        }
    }

    /// Adds bytes, with escapes for those that aren't seen.
    fn add_bytes(&mut self, bytes: &[u8]) {
        for byte in bytes {
            self.add_byte(*byte);
        }
    }

    /// Ends a line with bytes, between marks that show where they begin and end.
    pub fn end_with(&mut self, bytes: &[u8]) {
        self.add(" `");
        self.add_bytes(bytes);
        self.add("`\n");
    }
}

/// The escape of a byte that has one of its own, and else no text.
fn escape_of(byte: u8) -> &'static str {
    match byte {
        b'\n' => "\\n",
        b'\r' => "\\r",
        b'\t' => "\\t",
        b'\\' => "\\\\",
        _ => "",
    }
}

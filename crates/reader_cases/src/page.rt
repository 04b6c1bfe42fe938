// What is printed.

use cc_ast::units::Units;
use std::alloc::{AllocError, Global};
use std::fmt::Write;
use std::io;

/// The text that is printed next. That memory was wanting for a part of it is told when the text is
/// printed, so that what writes a part has no fault of its own.
#[derive(Drop)]
pub(crate) struct Page {
    text: String,
    is_short: bool,
}

impl Page {
    pub(crate) fn new(alloc: Global) -> Page {
        Page {
            text: String::new(alloc),
            is_short: false,
        }
    }

    // Keeps that memory was wanting.
    fn keep(&mut self, outcome: Result<(), AllocError>) {
        if outcome.is_err() {
            self.is_short = true;
        }
    }

    pub(crate) fn put(&mut self, text: &str) {
        let outcome = self.text.push_str(text);
        self.keep(outcome);
    }

    /// Begins a row of an answer.
    pub(crate) fn row(&mut self) {
        self.put("\n  ");
    }

    /// The row where memory was wanting for what is shown.
    pub(crate) fn memory(&mut self) {
        self.put("\n  memory");
    }

    pub(crate) fn number(&mut self, number: i64) {
        let outcome = write!(self.text, "{number}");
        self.keep(outcome);
    }

    pub(crate) fn count(&mut self, count: usize) {
        let outcome = write!(self.text, "{count}");
        self.keep(outcome);
    }

    /// A unit by its hexadecimal digits.
    pub(crate) fn digits(&mut self, unit: u16) {
        let outcome = write!(self.text, "{unit:x}");
        self.keep(outcome);
    }

    /// A unit as its character where that is in ASCII and can be seen, else as an escape.
    pub(crate) fn unit(&mut self, unit: u16) {
        match u8::try_from(unit) {
            Ok(b'\n') => self.put("\\n"),
            Ok(b'\\') => self.put("\\\\"),
            Ok(byte @ b' '..=b'~') => {
                let outcome = self.text.push(char::from(byte));
                self.keep(outcome);
            }
            _ => {
                let outcome = write!(self.text, "\\u{unit:04x}");
                self.keep(outcome);
            }
        }
    }

    pub(crate) fn units(&mut self, units: &Units) {
        for unit in units.list.iter() {
            self.unit(*unit);
        }
    }

    pub(crate) fn clear(&mut self) {
        self.text.clear();
    }

    pub(crate) fn print(&mut self, rt: &impl Print) -> io::Result<()> {
        if self.is_short {
            return Err(io::Error::from(io::ErrorKind::OutOfMemory));
        }
        rt.print(self.text.as_str())?;
        self.text.clear();
        Ok(())
    }
}

// Texts with escapes.

use std::alloc::Global;
use std::str;

/// The bytes of a text, of which the pieces between backslashes come one by one. Each begins with an
/// escape, but for the first one, and for those behind an empty piece, which is an escaped backslash.
#[derive(Drop)]
pub struct Escapes {
    bytes: Vec<u8>,
    plain: bool,
    good: bool,
}

impl Escapes {
    pub fn new(alloc: Global) -> Escapes {
        Escapes {
            bytes: Vec::new(alloc),
            plain: true,
            good: true,
        }
    }

    /// The bytes, where each escape could be read.
    pub fn bytes(self) -> Option<Vec<u8>> {
        if self.good && !self.plain {
            Some(self.bytes)
        } else {
            None
        }
    }

    pub fn add(&mut self, piece: &[u8]) {
        if self.plain {
            self.plain = false;
            self.add_plain(piece);
        } else {
            self.plain = piece.is_empty();
            self.add_escaped(piece);
        }
    }

    fn add_plain(&mut self, bytes: &[u8]) {
        if self.bytes.extend_from_slice(bytes).is_err() {
            self.good = false;
        }
    }

    fn add_escaped(&mut self, piece: &[u8]) {
        match piece.split_first() {
            None => self.add_plain(b"\\"),
            Some((b'x', rest)) => self.add_hex(rest),
            Some((letter, rest)) => self.add_letter(*letter, rest),
        }
    }

    fn add_letter(&mut self, letter: u8, rest: &[u8]) {
        match letter {
            b'n' => self.add_plain(b"\n"),
            b'r' => self.add_plain(b"\r"),
            b't' => self.add_plain(b"\t"),
            b's' => self.add_plain(b" "),
            _ => self.good = false,
        }
        self.add_plain(rest);
    }

    fn add_hex(&mut self, piece: &[u8]) {
        match piece.split_at_checked(2) {
            Some((digits, rest)) => self.add_digits(digits, rest),
            None => self.good = false,
        }
    }

    fn add_digits(&mut self, digits: &[u8], rest: &[u8]) {
        match hex(digits) {
            Some(byte) => self.add_plain(&[byte]),
            None => self.good = false,
        }
        self.add_plain(rest);
    }
}

/// The byte that hexadecimal digits write.
fn hex(digits: &[u8]) -> Option<u8> {
    match str::from_utf8(digits) {
        Ok(digits) => u8::from_str_radix(digits, 16).ok(),
        Err(_) => None,
    }
}

// Texts as a case writes them: `\n`, `\r`, `\t`, `\s` and `\\` are a line end, a return, a tab, a
// space and a backslash, `\xHH` is a byte, and what stands between `\{COUNT:` and `\}` stands there
// so many times.

use cc_text::{numeral, split_first};
use std::alloc::Global;

/// The bytes so far, and where something is repeated, how often, and its bytes so far.
#[derive(Drop)]
struct Written {
    bytes: Vec<u8>,
    repeated: Vec<u8>,
    times: Option<u16>,
}

impl Written {
    // Adds bytes, if memory allows.
    fn add(&mut self, part: &[u8]) -> bool {
        match self.times {
            None => self.bytes.extend_from_slice(part).is_ok(),
            Some(_) => self.repeated.extend_from_slice(part).is_ok(),
        }
    }

    fn add_before(&mut self, byte: u8, rest: &str) -> bool {
        self.add(&[byte]) && self.add(rest.as_bytes())
    }

    // A byte by its two digits.
    fn byte(&mut self, text: &str) -> bool {
        match hexadecimal(text) {
            Some((byte, rest)) => self.add_before(byte, rest),
            None => false,
        }
    }

    // Begins what is repeated, in which nothing else is.
    fn open(&mut self, text: &str) -> bool {
        let Some((count, rest)) = text.split_once(':') else {
            return false;
        };
        let Ok(times) = count.parse::<u16>() else {
            return false;
        };
        if self.times.is_some() {
            return false;
        }
        self.times = Some(times);
        self.repeated.clear();
        self.add(rest.as_bytes())
    }

    // Ends what is repeated, and adds it so many times.
    fn close(&mut self, rest: &str) -> bool {
        let Some(times) = self.times else {
            return false;
        };
        for _turn in 0..times {
            if self
                .bytes
                .extend_from_slice(self.repeated.as_slice())
                .is_err()
            {
                return false;
            }
        }
        self.times = None;
        self.add(rest.as_bytes())
    }

    // What stands behind a backslash, up to the next one.
    fn escaped(&mut self, text: &str) -> bool {
        match split_first(text) {
            None => self.add(b"\\"),
            Some(('n', rest)) => self.add_before(b'\n', rest),
            Some(('r', rest)) => self.add_before(b'\r', rest),
            Some(('t', rest)) => self.add_before(b'\t', rest),
            Some(('s', rest)) => self.add_before(b' ', rest),
            Some(('x', rest)) => self.byte(rest),
            Some(('{', rest)) => self.open(rest),
            Some(('}', rest)) => self.close(rest),
            Some(_) => false,
        }
    }
}

fn hexadecimal(text: &str) -> Option<(u8, &str)> {
    let (digits, rest) = text.split_at_checked(2)?;
    let value = numeral(digits, 16)?;
    Some((u8::try_from(value).ok()?, rest))
}

// Adds the parts between backslashes. Behind one that begins an escape, an empty part means that
// another backslash follows, and the part behind that is plain.
fn add_parts(written: &mut Written, text: &str) -> bool {
    let mut is_behind = false;
    for part in text.split('\\') {
        let is_added = if is_behind {
            written.escaped(part)
        } else {
            written.add(part.as_bytes())
        };
        if !is_added {
            return false;
        }
        is_behind = !is_behind || !part.is_empty();
    }
    is_behind && written.times.is_none()
}

/// The bytes that a text writes, or none where it isn't well written or memory is wanting.
pub(crate) fn bytes_of(alloc: Global, text: &str) -> Option<Vec<u8>> {
    let mut written = Written {
        bytes: Vec::new(alloc),
        repeated: Vec::new(alloc),
        times: None,
    };
    if !add_parts(&mut written, text) {
        return None;
    }
    let Written {
        bytes,
        repeated: _,
        times: _,
    } = written;
    Some(bytes)
}

// How far readers go.

/// How long a list may be in turns of its loop, and how high a tree may be.
#[derive(Clone, Copy)]
pub struct Limits {
    pub turns: usize,
    pub depth: u16,
}

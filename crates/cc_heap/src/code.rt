// What a function object runs, and what makes a frame.

/// The function of a function object: its number, the frame around it, and the site where it
/// stands (ECMA-262 5.1, 13.2).
#[derive(Clone, Copy)]
pub struct Code {
    pub function: u32,
    pub up: Option<usize>,
    pub site: u32,
}

/// What made a frame: a call of a function, a catch clause, or the own name of a function
/// expression (ECMA-262 5.1, 10.2, 12.14, 13).
#[derive(Clone, Copy)]
pub enum FrameKind {
    Call(u32),
    Catch,
    OwnName,
}

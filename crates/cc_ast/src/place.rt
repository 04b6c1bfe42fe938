// Places in the source.

/// Where a construct begins: the file's number, externs first and sources next in the order of
/// the words, the offset in bytes from 0, and the line and the column, both from 1. Columns count
/// characters. LF, CR, CR LF, U+2028 and U+2029 end a line.
#[derive(Clone, Copy, Debug)]
pub struct Place {
    pub file: u32,
    pub offset: u32,
    pub line: u32,
    pub column: u32,
}

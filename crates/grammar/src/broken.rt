// The column, from 1, of the first byte at which no line can go on; one past the last byte where the bytes end there.
#[derive(Clone, Copy, Debug, PartialEq)]
pub struct BrokenLine {
    pub column: usize,
}

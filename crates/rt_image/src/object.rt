//! What an object file spells.

/// A symbol of an object. It borrows its name from the file's bytes.
#[derive(Clone, Copy, PartialEq, Eq)]
pub struct Symbol<'a> {
    /// A word of assembly text, of 1 to 512 bytes.
    pub name: &'a [u8],
    /// From 0x80000000 up to 0x80000000 + the length of the object's bytes.
    pub address: u32,
}

/// An object: an image that begins at 0x80000000. It borrows its bytes from the file's.
#[derive(Drop)]
pub struct Object<'a> {
    /// The address of the first instruction. Any number will do.
    pub entry: u32,
    /// The image, of at most 1,048,576 bytes.
    pub bytes: &'a [u8],
    /// At most 65,536, whose names rise strictly by bytes.
    pub symbols: Vec<Symbol<'a>>,
}

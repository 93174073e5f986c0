//! What an operation is made with.

/// The addresses with which an operation is made, and the value of TagLo before it.
#[derive(Clone, Copy)]
pub struct Operands {
    pub va: u32,
    pub pa: u64,
    pub tag: u32,
}

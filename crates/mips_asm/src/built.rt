//! What a source is assembled to, and why it is refused.

use mips_text::AsmWhy;
use thiserror::Error;

/// An image.
#[derive(Drop)]
pub struct Built {
    /// The address of the first byte.
    pub base: u32,
    /// The address of the first instruction: the label `start`, else the base.
    pub entry: u32,
    /// The bytes, at most 8388608.
    pub bytes: Vec<u8>,
}

/// Why a source has no image.
#[derive(Clone, Copy, Debug, Error)]
pub enum AsmFault {
    /// The first bad line, counted from 1, and the first reason that holds for it.
    #[error("line {line}: {why}")]
    Bad { line: u32, why: AsmWhy },
    /// Want of memory.
    #[error("out of memory")]
    Memory,
}

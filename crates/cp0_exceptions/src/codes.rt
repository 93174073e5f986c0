//! The codes of the causes, as they stand in Cause.

/// An interrupt.
pub const INTERRUPT: u8 = 0;
/// A store to a page that is not dirty.
pub const MODIFIED: u8 = 1;
/// No page, or an invalid one, at a fetch or load.
pub const TLB_LOAD: u8 = 2;
/// No page, or an invalid one, at a store.
pub const TLB_STORE: u8 = 3;
/// An address error at a fetch or load.
pub const ADDRESS_LOAD: u8 = 4;
/// An address error at a store.
pub const ADDRESS_STORE: u8 = 5;
/// A bus error at a fetch.
pub const BUS_FETCH: u8 = 6;
/// A bus error at a load or store.
pub const BUS_DATA: u8 = 7;

pub const SYSTEM_CALL: u8 = 8;

pub const BREAKPOINT: u8 = 9;

pub const RESERVED_INSTRUCTION: u8 = 10;
/// A coprocessor that is not usable.
pub const COPROCESSOR_UNUSABLE: u8 = 11;

pub const OVERFLOW: u8 = 12;

pub const TRAP: u8 = 13;
/// A line of the secondary cache under another virtual index, at a fetch.
pub const COHERENCY_FETCH: u8 = 14;
/// A line of the secondary cache under another virtual index, at a load or store.
pub const COHERENCY_DATA: u8 = 31;

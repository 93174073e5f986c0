//! What a machine shows to its reader.

use cp0_regs::Cp0;
use mips3_alu::Regs;
use tlb_model::Tlb;

/// What the report tells of a state.
#[derive(Drop)]
pub struct View<'a> {
    /// How many ticks were made.
    pub ticks: u32,
    /// The halt code, where the run has ended by itself.
    pub halt: Option<u32>,
    pub pc: u32,
    pub npc: u32,
    pub slot: bool,
    pub link: bool,
    pub regs: &'a Regs,
    pub cp0: &'a Cp0,
    pub tlb: &'a Tlb,
    /// The disk's register SECT.
    pub sector: u32,
    /// The disk's register ADDR.
    pub address: u32,
    /// The disk's register DSTAT, at most 7.
    pub status: u32,
    /// What the console has printed.
    pub console: &'a [u8],
    /// The bytes of the disk, of which the report tells nothing.
    pub disk: &'a [u8],
}

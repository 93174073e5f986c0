//! What an exception does.

ghost use Rattle.std.specs.Prelude.{◌≡◌, ◌<◌};
ghost use Rattle.cp0_exceptions.specs.Causes as causes;
ghost use Rattle.cp0_exceptions.specs.Causes.{IsRaised};
ghost use Rattle.cp0_exceptions.specs.Raising as law;
ghost use Rattle.cp0_regs.specs.Fields as fields;
ghost use Rattle.cp0_regs.specs.Fixed.{KeepsFixed};
ghost use Rattle.cp0_regs.specs.State.{with_value};

use crate::codes::{
    ADDRESS_LOAD, ADDRESS_STORE, COHERENCY_DATA, COHERENCY_FETCH, COPROCESSOR_UNUSABLE, MODIFIED,
    TLB_LOAD, TLB_STORE,
};
use cp0_regs::Cp0;
use cp0_regs::fields::{BAD_VPN2, BD, BEV, CE, EXC_CODE, EXL, VPN2};
use cp0_regs::registers::{BAD_VADDR, EPC};

/// An exception: the code of its cause, the unit where a coprocessor is not usable, the address where its cause shows
/// one, and whether it is a refill of the TLB.
#[derive(Clone, Copy, PartialEq, Eq)]
pub struct Raised {
    pub code: u8,
    pub unit: u8,
    pub bad: Option<u32>,
    pub refill: bool,
}

/// Where the vectors of refills stand in the PROM and in RAM, and how far behind them those of all else.
const PROM_VECTORS: u32 = 0xbfc0_0200;

const RAM_VECTORS: u32 = 0x8000_0000;

const GENERAL_OFFSET: u32 = 0x180;

// The address to come back to.
fn return_address(pc: u32, slot: bool) -> u32
    ensures address { result ≡ law.return_address pc slot }
{
    if slot { pc.wrapping_sub(4) } else { pc }
}

// Keeps the place to come back to, unless an exception is being handled.
#[tactic(auto, using(cp0_regs::proofs::Possible::epc_possible, cp0_regs::proofs::Possible::bd_is_free))]
fn set_return(cp0: &mut Cp0, pc: u32, slot: bool)
    ensures returning { cp0.new ≡ law.with_return cp0.old pc slot }
{
    if cp0.field(EXL) == 1 {
        return;
    }
    cp0.set(EPC, return_address(pc, slot));
    cp0.set_field(BD, u32::from(slot));
}

// Tells the unit where the cause does.
#[tactic(auto, using(cp0_regs::proofs::Possible::ce_is_free), unfolding(crate::specs::Raising::with_unit))]
fn set_unit(cp0: &mut Cp0, code: u8, unit: u8)
    ensures told { cp0.new ≡ law.with_unit cp0.old code unit }
{
    if code == COPROCESSOR_UNUSABLE {
        cp0.set_field(CE, u32::from(unit));
    }
}

// Shows the page of an address.
#[tactic(auto, using(cp0_regs::proofs::Possible::bad_vpn2_is_free, cp0_regs::proofs::Possible::vpn2_is_free))]
fn show_page(cp0: &mut Cp0, address: u32)
    ensures shown { let pair = law.page_pair address in cp0.new ≡ with_value (with_value cp0.old fields.bad_vpn2 pair) fields.vpn2 pair }
{
    let pair = address >> 13;
    cp0.set_field(BAD_VPN2, pair);
    cp0.set_field(VPN2, pair);
}

// Shows the address as far as the cause does.
#[tactic(auto, using(cp0_regs::proofs::Possible::bad_vaddr_possible), unfolding(crate::specs::Causes::shown_of))]
fn show_address(cp0: &mut Cp0, code: u8, address: u32)
    ensures shown { cp0.new ≡ law.with_shown cp0.old (causes.shown_of code) address }
{
    match code {
        ADDRESS_LOAD | ADDRESS_STORE | COHERENCY_FETCH | COHERENCY_DATA => {
            cp0.set(BAD_VADDR, address);
        }
        MODIFIED | TLB_LOAD | TLB_STORE => {
            cp0.set(BAD_VADDR, address);
            show_page(cp0, address);
        }
        _ => {}
    }
}

// Where an exception leads.
#[tactic(auto, unfolding(crate::specs::Raising::vector_of))]
fn vector_of(cp0: &Cp0, refill: bool) -> u32
    ensures vector { result ≡ law.vector_of cp0.now refill }
{
    let base = if cp0.field(BEV) == 1 {
        PROM_VECTORS
    } else {
        RAM_VECTORS
    };
    let level = cp0.field(EXL);
    if refill && level == 0 {
        base
    } else {
        base + GENERAL_OFFSET
    }
}

// What an exception makes of CP0.
#[tactic(auto, using(cp0_regs::proofs::Possible::free_cause_and_level), unfolding(crate::specs::Raising::raised))]
fn change(cp0: &mut Cp0, what: &Raised, pc: u32, slot: bool)
    requires { IsRaised what.now }
    ensures raised { cp0.new ≡ law.raised cp0.old what.now pc slot }
{
    set_return(cp0, pc, slot);
    cp0.set_field(EXC_CODE, u32::from(what.code));
    set_unit(cp0, what.code, what.unit);
    if let Some(address) = what.bad {
        show_address(cp0, what.code, address);
    }
    cp0.set_field(EXL, 1);
}

/// Takes an exception at an instruction, which stands in a delay slot or does not: what becomes of CP0, and the pc to
/// which it leads.
pub fn raise(cp0: &mut Cp0, what: &Raised, pc: u32, slot: bool) -> u32
    requires what { IsRaised what.now }
    ensures raised { cp0.new ≡ law.raised cp0.old what.now pc slot }
    ensures vector { result ≡ law.vector_of cp0.old what.now.refill }
    ensures fixed { KeepsFixed cp0.old cp0.new }
{
    let vector = vector_of(cp0, what.refill);
    change(cp0, what, pc, slot);
    vector
}

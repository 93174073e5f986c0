//! The instructions of coprocessor 0.

ghost use Rattle.std.specs.Prelude.{◌≡◌, ◌<◌};
ghost use Rattle.cp0_regs.specs.Bits.{HasOnly};
ghost use Rattle.cp0_regs.specs.Registers.{possible_bits};
ghost use Rattle.mips3_exec.specs.SystemControl as law;
ghost use Rattle.tlb_model.specs.Pairs.{IsPair};

use crate::processor::Cpu;
use crate::talk::StepEnd;
use cp0_regs::registers::{ENTRY_HI, ENTRY_LO0, ENTRY_LO1, INDEX, PAGE_MASK, WIRED};
use mips3_table::{Inst, Operation};
use r4_words::sext32;
use tlb_model::{Pair, stored_pair, zero_pair};

/// How many pairs the TLB has.
const PAIRS: u32 = 48;

// The pair that the registers of CP0 hold, as it is stored.
#[tactic(auto, using(crate::proofs::System::hi_bits_only, crate::proofs::System::lo0_bits_only, crate::proofs::System::lo1_bits_only))]
fn held_pair(cpu: &Cpu) -> Pair
    ensures pair { result ≡ law.held_pair cpu.now }
    ensures storable { IsPair result }
{
    let mask = cpu.cp0.page_mask();
    let hi = cpu.cp0.read(ENTRY_HI);
    let lo0 = cpu.cp0.read(ENTRY_LO0);
    let lo1 = cpu.cp0.read(ENTRY_LO1);
    stored_pair(mask, hi, lo0, lo1)
}

// Stores that pair at an index, where there is one of it.
fn write_entry(cpu: &mut Cpu, at: u32)
    ensures entry { cpu.new ≡ law.with_entry cpu.old at }
{
    if at < PAIRS {
        let pair = held_pair(cpu);
        cpu.tlb.write(at, pair);
    }
}

// The pair at an index, zeros past the last.
fn entry_at(cpu: &Cpu, at: u32) -> Pair
    ensures pair { result ≡ law.entry_at cpu.now.tlb at }
    ensures storable { IsPair result }
{
    if at < PAIRS {
        return cpu.tlb.read(at);
    }
    zero_pair()
}

// Puts a pair into the registers of CP0.
#[tactic(auto, using(crate::proofs::System::pair_fits))]
fn show_pair(cpu: &mut Cpu, pair: Pair)
    requires { IsPair pair }
    ensures shown { cpu.new ≡ law.with_pair cpu.old pair }
{
    cpu.cp0.set(PAGE_MASK, pair.mask);
    cpu.cp0.set(ENTRY_HI, pair.hi);
    cpu.cp0.set(ENTRY_LO0, pair.lo0);
    cpu.cp0.set(ENTRY_LO1, pair.lo1);
}

// The low six bits of Index.
fn indexed(cpu: &Cpu) -> u32
    ensures index { result ≡ law.indexed cpu.now }
{
    cpu.cp0.read(INDEX) % 64
}

// What Index shows of a search for EntryHi.
#[tactic(auto, using(crate::proofs::System::index_possible, crate::proofs::System::none_possible))]
fn probed(cpu: &Cpu) -> u32
    ensures index { result ≡ law.probed (law.search cpu.now) }
    ensures possible { HasOnly result (possible_bits 0) }
{
    match cpu.tlb.probe(cpu.cp0.read(ENTRY_HI)) {
        Some(at) => at,
        None => 0x80000000,
    }
}

/// Whether an operation is one of coprocessor 0, the cache operation among them.
pub fn is_privileged(operation: Operation) -> bool
    ensures privileged { result ≡ law.is_privileged operation }
{
    matches!(
        operation,
        Operation::MoveFromCp0(_)
            | Operation::MoveToCp0(_)
            | Operation::ReadTlb
            | Operation::WriteIndexedTlb
            | Operation::WriteRandomTlb
            | Operation::ProbeTlb
            | Operation::ReturnFromException
            | Operation::OperateCache
    )
}

/// Carries out an instruction of coprocessor 0.
#[tactic(auto, unfolding(crate::specs::SystemControl::controlled, crate::specs::SystemControl::control_end))]
pub fn control(cpu: &mut Cpu, inst: &Inst, operation: Operation) -> StepEnd
    requires rt { inst.now.rt < 32 }
    requires rd { inst.now.rd < 32 }
    ensures end { result ≡ law.control_end inst.now operation }
    ensures cpu { cpu.new ≡ law.controlled cpu.old inst.now operation }
    ensures ticks { cpu.new.ticks ≡ cpu.old.ticks }
{
    match operation {
        Operation::MoveFromCp0(_) => {
            let value = sext32(cpu.cp0.read(inst.rd));
            cpu.regs.write(inst.rt, value);
        }
        Operation::MoveToCp0(_) => {
            let value = (cpu.regs.read(inst.rt) % 4294967296) as u32;
            cpu.cp0.write(inst.rd, value);
            cpu.advance();
            return if inst.rd == WIRED {
                StepEnd::WroteWired
            } else {
                StepEnd::Went
            };
        }
        Operation::ReadTlb => {
            let pair = entry_at(cpu, indexed(cpu));
            show_pair(cpu, pair);
        }
        Operation::WriteIndexedTlb => {
            let at = indexed(cpu);
            write_entry(cpu, at);
        }
        Operation::WriteRandomTlb => {
            let at = cpu.cp0.random();
            write_entry(cpu, at);
        }
        Operation::ProbeTlb => {
            let found = probed(cpu);
            cpu.cp0.set(INDEX, found);
        }
        Operation::ReturnFromException => {
            cpu.go_back();
            return StepEnd::Went;
        }
        _ => {}
    }
    cpu.advance();
    StepEnd::Went
}

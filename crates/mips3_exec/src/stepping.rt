//! One step of the processor over any memory system.

ghost use Rattle.std.specs.Prelude.{◌≡◌, false, None, IfSome};
ghost use Rattle.mips3_table.specs.Instructions.{IsInst};
ghost use Rattle.cp0_exceptions.specs.Causes.{IsRaised};
ghost use Rattle.mips3_exec.specs.Effects.{operation_of};
ghost use Rattle.mips3_exec.specs.Ranges.{AlignsByBytes, HasRegisters, RaisesItsOwn, TouchesMoved, TouchesFew};
ghost use Rattle.mips3_exec.specs.Talk.{hold};
ghost use Rattle.mips3_exec.specs.Step as law;

use crate::effects::Effect;
use crate::executing::effect;
use crate::processor::Cpu;
use crate::references::{Reference, refer, trap};
use crate::routes::{Route, access_of, address_error, at_address, plain, route_of};
use crate::system_control::{control, is_privileged};
use crate::talk::{MemorySystem, Reply, Request, StepEnd};
use cp0_exceptions::Raised;
use cp0_exceptions::codes::{
    BUS_FETCH, COHERENCY_FETCH, COPROCESSOR_UNUSABLE, INTERRUPT, RESERVED_INSTRUCTION,
};
use mips3_code::decode;
use mips3_table::{Inst, is_64_bit, operation_of};

// An exception that an instruction raises by itself, which names no address.
fn raised_by(code: u8, unit: u8) -> Raised
    ensures raised { result ≡ record { code = code; unit = unit; bad = None; refill = false } }
{
    Raised {
        unit,
        ..plain(code)
    }
}

// What an instruction does, by its effect.
#[tactic(auto, unfolding(crate::specs::Step::perform))]
fn perform<M: MemorySystem>(cpu: &mut Cpu, memory: &mut M, inst: &Inst, effect: Effect) -> StepEnd
    requires inst { IsInst inst.now }
    requires registers { HasRegisters effect }
    requires raised { RaisesItsOwn effect }
    requires moved { TouchesMoved (operation_of inst.now) effect }
    requires few { TouchesFew (operation_of inst.now) effect }
    requires aligned { AlignsByBytes (operation_of inst.now) effect }
    ensures end { result ≡ (hold M.ask_gives memory.old (law.perform cpu.old inst.now effect)).end }
    ensures cpu { cpu.new ≡ (hold M.ask_gives memory.old (law.perform cpu.old inst.now effect)).cpu }
    ensures memory { memory.new ≡ (hold M.ask_gives memory.old (law.perform cpu.old inst.now effect)).memory }
    ensures ticks { cpu.new.ticks ≡ cpu.old.ticks }
{
    match effect {
        Effect::Nothing => cpu.advance(),
        Effect::Set { reg, value } => cpu.set(reg, value),
        Effect::HiLo { hi, lo } => {
            cpu.regs.hi = hi;
            cpu.regs.lo = lo;
            cpu.advance();
        }
        Effect::Jump {
            taken,
            likely,
            target,
            link,
            value,
        } => {
            cpu.regs.write(link, value);
            cpu.branch(taken, likely, target);
        }
        Effect::Touch {
            kind,
            va,
            first,
            size,
            reg,
        } => {
            let reference = Reference {
                kind,
                va,
                first,
                size,
                reg,
            };
            return refer(cpu, memory, inst, reference);
        }
        Effect::System { .. } => return control(cpu, inst, operation_of(inst.row)),
        Effect::Raise { code, unit } => return trap(cpu, raised_by(code, unit)),
    }
    StepEnd::Went
}

// The exception of an instruction that the mode does not allow.
#[tactic(auto, unfolding(crate::specs::Step::refusal_of))]
fn refusal_of(cpu: &Cpu, inst: &Inst) -> Option<Raised>
    requires inst { IsInst inst.now }
    ensures refusal { result ≡ law.refusal_of cpu.now inst.now }
    ensures raised { IfSome result IsRaised }
{
    if cpu.cp0.is_kernel() {
        return None;
    }
    if is_64_bit(inst.row) {
        return Some(plain(RESERVED_INSTRUCTION));
    }
    let usable = cpu.cp0.has_coprocessor_0();
    if !usable && is_privileged(operation_of(inst.row)) {
        return Some(plain(COPROCESSOR_UNUSABLE));
    }
    None
}

// Carries out a word.
#[tactic(auto, unfolding(crate::specs::Step::carry_out))]
fn carry_out<M: MemorySystem>(cpu: &mut Cpu, memory: &mut M, word: u32) -> StepEnd
    ensures end { result ≡ (hold M.ask_gives memory.old (law.carry_out cpu.old word)).end }
    ensures cpu { cpu.new ≡ (hold M.ask_gives memory.old (law.carry_out cpu.old word)).cpu }
    ensures memory { memory.new ≡ (hold M.ask_gives memory.old (law.carry_out cpu.old word)).memory }
    ensures ticks { cpu.new.ticks ≡ cpu.old.ticks }
{
    let Some(inst) = decode(word) else {
        return trap(cpu, plain(RESERVED_INSTRUCTION));
    };
    if let Some(what) = refusal_of(cpu, &inst) {
        return trap(cpu, what);
    }
    let effect = effect(&inst, &cpu.regs, cpu.pc);
    perform(cpu, memory, &inst, effect)
}

// Fetches the word at pc, and carries it out.
#[tactic(auto, unfolding(crate::specs::Step::fetch))]
fn fetch<M: MemorySystem>(cpu: &mut Cpu, memory: &mut M) -> StepEnd
    ensures end { result ≡ (hold M.ask_gives memory.old (law.fetch cpu.old)).end }
    ensures cpu { cpu.new ≡ (hold M.ask_gives memory.old (law.fetch cpu.old)).cpu }
    ensures memory { memory.new ≡ (hold M.ask_gives memory.old (law.fetch cpu.old)).memory }
    ensures ticks { cpu.new.ticks ≡ cpu.old.ticks }
{
    let pc = cpu.pc;
    if pc % 4 != 0 {
        return trap(cpu, address_error(false, pc));
    }
    match route_of(cpu, false, pc, pc) {
        Route::Fault(what) => trap(cpu, what),
        Route::To { pa, cached } => {
            let access = access_of(cpu, pc, pa, cached);
            match memory.ask(Request::Fetch { access }) {
                Reply::Value(word) => carry_out(cpu, memory, word as u32),
                Reply::Coherency => trap(cpu, at_address(COHERENCY_FETCH, pc)),
                Reply::BusError => trap(cpu, plain(BUS_FETCH)),
                _ => unreachable!(),
            }
        }
    }
}

/// One step: an interrupt where one is taken, or the instruction at pc.
#[tactic(auto, unfolding(crate::specs::Step::step))]
pub fn step<M: MemorySystem>(cpu: &mut Cpu, memory: &mut M) -> StepEnd
    ensures end { result ≡ (hold M.ask_gives memory.old (law.step cpu.old)).end }
    ensures cpu { cpu.new ≡ (hold M.ask_gives memory.old (law.step cpu.old)).cpu }
    ensures memory { memory.new ≡ (hold M.ask_gives memory.old (law.step cpu.old)).memory }
    ensures ticks { cpu.new.ticks ≡ cpu.old.ticks }
{
    if cpu.cp0.takes_interrupt() {
        return trap(cpu, plain(INTERRUPT));
    }
    fetch(cpu, memory)
}

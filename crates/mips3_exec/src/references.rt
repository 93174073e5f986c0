//! Loads, stores and cache operations over any memory system.

ghost use Rattle.std.specs.Prelude.{◌≡◌, ◌<◌, ◌^◌, true};
ghost use Rattle.mips3_table.specs.Instructions.{IsInst};
ghost use Rattle.cp0_exceptions.specs.Causes.{IsRaised};
ghost use Rattle.mips3_exec.specs.declared.talk.StepEnd.TheVariants.{Went, Trapped};
ghost use Rattle.mips3_exec.specs.Accesses.{begins_aligned, is_aligned};
ghost use Rattle.mips3_exec.specs.Effects.{operation_of};
ghost use Rattle.mips3_exec.specs.Processor.{advanced, taken};
ghost use Rattle.mips3_exec.specs.Ranges.{IsAccess, IsSmall, reads, writes};
ghost use Rattle.mips3_exec.specs.Talk.{hold, is_access};
ghost use Rattle.mips3_exec.specs.References as law;

use crate::accesses::is_aligned;
use crate::effects::Touch;
use crate::merging::{loaded, stored};
use crate::processor::Cpu;
use crate::routes::{Route, access_of, address_error, at_address, plain, route_of};
use crate::talk::{Access, MemorySystem, Reply, Request, StepEnd};
use cp0_exceptions::Raised;
use cp0_exceptions::codes::{BUS_DATA, COHERENCY_DATA};
use cp0_regs::registers::TAG_LO;
use mips3_table::Inst;

/// What an instruction wants of memory.
#[derive(Clone, Copy)]
pub struct Reference {
    pub kind: Touch,
    /// The effective address.
    pub va: u32,
    /// The lowest address that is touched.
    pub first: u32,
    /// How many bytes, 1 to 8.
    pub size: u8,
    /// The general register, or the code of a cache operation.
    pub reg: u8,
}

/// Takes an exception, which ends the step.
pub fn trap(cpu: &mut Cpu, what: Raised) -> StepEnd
    requires { IsRaised what }
    ensures end { result ≡ StepEnd.Trapped what.code }
    ensures cpu { cpu.new ≡ taken cpu.old what }
    ensures ticks { cpu.new.ticks ≡ cpu.old.ticks }
{
    cpu.take(&what);
    StepEnd::Trapped(what.code)
}

// The link of a load linked.
fn set_link(cpu: &mut Cpu, kind: Touch, pa: u64)
    requires { pa < 2 ^ 36 }
    ensures linked { cpu.new ≡ law.linked cpu.old kind pa }
    ensures ticks { cpu.new.ticks ≡ cpu.old.ticks }
{
    if let Touch::Link = kind {
        cpu.link.mark(&mut cpu.cp0, pa);
    }
}

// A load whose address leads to a physical one.
#[tactic(auto, unfolding(crate::specs::References::loaded))]
fn load_from<M: MemorySystem>(
    cpu: &mut Cpu,
    memory: &mut M,
    inst: &Inst,
    r: Reference,
    access: Access,
) -> StepEnd
    requires inst { IsInst inst.now }
    requires reg { r.reg < 32 }
    requires reads { reads r.kind ≡ true }
    requires access { IsAccess (operation_of inst.now) r.kind r.va r.first r.size }
    requires asked { is_access access r.size ≡ true }
    ensures end { result ≡ (hold M.ask_gives memory.old (law.load_from cpu.old inst.now r access)).end }
    ensures cpu { cpu.new ≡ (hold M.ask_gives memory.old (law.load_from cpu.old inst.now r access)).cpu }
    ensures memory { memory.new ≡ (hold M.ask_gives memory.old (law.load_from cpu.old inst.now r access)).memory }
    ensures ticks { cpu.new.ticks ≡ cpu.old.ticks }
{
    match memory.ask(Request::Load {
        access,
        size: r.size,
    }) {
        Reply::Value(bytes) => {
            let value = loaded(inst, cpu.regs.read(r.reg), r.va, bytes);
            set_link(cpu, r.kind, access.pa);
            cpu.set(r.reg, value);
            StepEnd::Went
        }
        Reply::Coherency => trap(cpu, at_address(COHERENCY_DATA, r.va)),
        Reply::BusError => trap(cpu, plain(BUS_DATA)),
        _ => unreachable!(),
    }
}

// A load.
#[tactic(auto, unfolding(crate::specs::References::load))]
fn load<M: MemorySystem>(cpu: &mut Cpu, memory: &mut M, inst: &Inst, r: Reference) -> StepEnd
    requires inst { IsInst inst.now }
    requires reg { r.reg < 32 }
    requires reads { reads r.kind ≡ true }
    requires access { IsAccess (operation_of inst.now) r.kind r.va r.first r.size }
    requires small { IsSmall (operation_of inst.now) r.va r.first r.size }
    requires aligned { is_aligned (operation_of inst.now) r.va ≡ begins_aligned r.first r.size }
    ensures end { result ≡ (hold M.ask_gives memory.old (law.load cpu.old inst.now r)).end }
    ensures cpu { cpu.new ≡ (hold M.ask_gives memory.old (law.load cpu.old inst.now r)).cpu }
    ensures memory { memory.new ≡ (hold M.ask_gives memory.old (law.load cpu.old inst.now r)).memory }
    ensures ticks { cpu.new.ticks ≡ cpu.old.ticks }
{
    if !is_aligned(r.first, r.size) {
        return trap(cpu, address_error(false, r.va));
    }
    match route_of(cpu, false, r.first, r.va) {
        Route::Fault(what) => trap(cpu, what),
        Route::To { pa, cached } => {
            let access = access_of(cpu, r.first, pa, cached);
            load_from(cpu, memory, inst, r, access)
        }
    }
}

// The success of a store conditional.
fn set_success(cpu: &mut Cpu, kind: Touch, reg: u8)
    requires { reg < 32 }
    ensures success { cpu.new ≡ law.succeeded cpu.old kind reg }
    ensures ticks { cpu.new.ticks ≡ cpu.old.ticks }
{
    if let Touch::Cond = kind {
        cpu.regs.write(reg, 1);
    }
}

// Whether a store conditional finds no link.
fn gives_up(cpu: &Cpu, kind: Touch) -> bool
    ensures gives_up { result ≡ law.gives_up cpu.now kind }
{
    match kind {
        Touch::Cond => !cpu.link.may_store(),
        _ => false,
    }
}

// Ends a store that was made.
fn succeed(cpu: &mut Cpu, r: Reference) -> StepEnd
    requires { r.reg < 32 }
    ensures end { result ≡ StepEnd.Went }
    ensures cpu { cpu.new ≡ advanced (law.succeeded cpu.old r.kind r.reg) }
    ensures ticks { cpu.new.ticks ≡ cpu.old.ticks }
{
    set_success(cpu, r.kind, r.reg);
    cpu.advance();
    StepEnd::Went
}

// A store whose address leads to a physical one.
#[tactic(auto, unfolding(crate::specs::References::stored))]
fn store_to<M: MemorySystem>(
    cpu: &mut Cpu,
    memory: &mut M,
    inst: &Inst,
    r: Reference,
    access: Access,
) -> StepEnd
    requires inst { IsInst inst.now }
    requires reg { r.reg < 32 }
    requires writes { writes r.kind ≡ true }
    requires access { IsAccess (operation_of inst.now) r.kind r.va r.first r.size }
    requires asked { is_access access r.size ≡ true }
    ensures end { result ≡ (hold M.ask_gives memory.old (law.store_to cpu.old inst.now r access)).end }
    ensures cpu { cpu.new ≡ (hold M.ask_gives memory.old (law.store_to cpu.old inst.now r access)).cpu }
    ensures memory { memory.new ≡ (hold M.ask_gives memory.old (law.store_to cpu.old inst.now r access)).memory }
    ensures ticks { cpu.new.ticks ≡ cpu.old.ticks }
{
    let value = stored(inst, cpu.regs.read(r.reg), r.va);
    match memory.ask(Request::Store {
        access,
        size: r.size,
        value,
    }) {
        Reply::Stored => succeed(cpu, r),
        Reply::Halt(code) => {
            cpu.halt = Some(code);
            succeed(cpu, r)
        }
        Reply::Coherency => trap(cpu, at_address(COHERENCY_DATA, r.va)),
        Reply::BusError => trap(cpu, plain(BUS_DATA)),
        _ => unreachable!(),
    }
}

// A store.
#[tactic(auto, unfolding(crate::specs::References::store))]
fn store<M: MemorySystem>(cpu: &mut Cpu, memory: &mut M, inst: &Inst, r: Reference) -> StepEnd
    requires inst { IsInst inst.now }
    requires reg { r.reg < 32 }
    requires writes { writes r.kind ≡ true }
    requires access { IsAccess (operation_of inst.now) r.kind r.va r.first r.size }
    requires small { IsSmall (operation_of inst.now) r.va r.first r.size }
    requires aligned { is_aligned (operation_of inst.now) r.va ≡ begins_aligned r.first r.size }
    ensures end { result ≡ (hold M.ask_gives memory.old (law.store cpu.old inst.now r)).end }
    ensures cpu { cpu.new ≡ (hold M.ask_gives memory.old (law.store cpu.old inst.now r)).cpu }
    ensures memory { memory.new ≡ (hold M.ask_gives memory.old (law.store cpu.old inst.now r)).memory }
    ensures ticks { cpu.new.ticks ≡ cpu.old.ticks }
{
    if !is_aligned(r.first, r.size) {
        return trap(cpu, address_error(true, r.va));
    }
    match route_of(cpu, true, r.first, r.va) {
        Route::Fault(what) => trap(cpu, what),
        Route::To { pa, cached } => {
            if gives_up(cpu, r.kind) {
                cpu.set(r.reg, 0);
                return StepEnd::Went;
            }
            let access = access_of(cpu, r.first, pa, cached);
            store_to(cpu, memory, inst, r, access)
        }
    }
}

// A cache operation.
#[tactic(auto, using(crate::proofs::System::tag_lo_fits), unfolding(crate::specs::References::operate, crate::specs::References::operated))]
fn operate<M: MemorySystem>(cpu: &mut Cpu, memory: &mut M, r: Reference) -> StepEnd
    requires code { r.reg < 32 }
    ensures end { result ≡ (hold M.ask_gives memory.old (law.operate cpu.old r)).end }
    ensures cpu { cpu.new ≡ (hold M.ask_gives memory.old (law.operate cpu.old r)).cpu }
    ensures memory { memory.new ≡ (hold M.ask_gives memory.old (law.operate cpu.old r)).memory }
    ensures ticks { cpu.new.ticks ≡ cpu.old.ticks }
{
    match route_of(cpu, false, r.va, r.va) {
        Route::Fault(what) => trap(cpu, what),
        Route::To { pa, cached } => {
            let access = access_of(cpu, r.va, pa, cached);
            let tag = cpu.cp0.read(TAG_LO);
            match memory.ask(Request::Cache {
                access,
                code: r.reg,
                tag,
            }) {
                Reply::Tag(tag) => {
                    cpu.cp0.set(TAG_LO, tag);
                    cpu.advance();
                    StepEnd::Went
                }
                _ => unreachable!(),
            }
        }
    }
}

/// Carries out what an instruction wants of memory.
pub fn refer<M: MemorySystem>(cpu: &mut Cpu, memory: &mut M, inst: &Inst, r: Reference) -> StepEnd
    requires inst { IsInst inst.now }
    requires reg { r.reg < 32 }
    requires access { IsAccess (operation_of inst.now) r.kind r.va r.first r.size }
    requires small { IsSmall (operation_of inst.now) r.va r.first r.size }
    requires aligned { is_aligned (operation_of inst.now) r.va ≡ begins_aligned r.first r.size }
    ensures end { result ≡ (hold M.ask_gives memory.old (law.refer cpu.old inst.now r)).end }
    ensures cpu { cpu.new ≡ (hold M.ask_gives memory.old (law.refer cpu.old inst.now r)).cpu }
    ensures memory { memory.new ≡ (hold M.ask_gives memory.old (law.refer cpu.old inst.now r)).memory }
    ensures ticks { cpu.new.ticks ≡ cpu.old.ticks }
{
    match r.kind {
        Touch::Load | Touch::Link => load(cpu, memory, inst, r),
        Touch::Store | Touch::Cond => store(cpu, memory, inst, r),
        Touch::Cache => operate(cpu, memory, r),
    }
}

//! The parts of a pause: a tick without a step, and the processor as the handler of a coherency exception leaves it.

ghost use Rattle.std.specs.Prelude.{◌≡◌, ◌<◌, ◌+◌};
ghost use Rattle.cp0_exceptions.specs.Raising.{return_address};
ghost use Rattle.mips3_exec.specs.Pausing as law;
ghost use Rattle.mips3_exec.specs.Talk.{hold};

use cp0_exceptions::codes::{COHERENCY_DATA, COHERENCY_FETCH};
use cp0_regs::Cp0;
use cp0_regs::fields::{BD, EXC_CODE};
use cp0_regs::registers::{BAD_VADDR, EPC};
use mips3_alu::Regs;
use mips3_exec::{Cpu, MemorySystem, Reply, Request};
use r4_words::sext32;

/// The registers that the handler changes.
const K0: u8 = 26;

const K1: u8 = 27;

/// How many ticks a pause has.
pub fn pause_length(fetch: bool) -> u32
    ensures { result ≡ law.pause_length fetch }
{
    if fetch { 11 } else { 9 }
}

/// Makes a tick without a step.
#[tactic(auto, unfolding(mips3_exec::specs::Pausing::pause_talk))]
pub fn make_pause_tick<M: MemorySystem>(cpu: &mut Cpu, memory: &mut M)
    requires { cpu.old.ticks < 4294967295 }
    ensures cpu { cpu.new ≡ (hold M.ask_gives memory.old (law.pause_talk cpu.old)).cpu }
    ensures memory { memory.new ≡ (hold M.ask_gives memory.old (law.pause_talk cpu.old)).memory }
    ensures ticks { cpu.new.ticks ≡ cpu.old.ticks + 1 }
    ensures halt { cpu.new.halt ≡ cpu.old.halt }
{
    let _ = memory.ask(Request::Inputs { tick: cpu.ticks });
    let _ = memory.ask(Request::Beat);
    match memory.ask(Request::Levels) {
        Reply::Levels(levels) => cpu.cp0.lines(levels),
        _ => unreachable!(),
    }
    cpu.count(false);
}

// The address at which the processor goes on.
fn return_address(pc: u32, slot: bool) -> u32
    ensures { result ≡ return_address pc slot }
{
    if slot { pc.wrapping_sub(4) } else { pc }
}

// The general registers as the handler leaves them.
fn handle_registers(regs: &mut Regs, fetch: bool, va: u32)
    ensures { regs.new ≡ law.handled_registers regs.old fetch va }
{
    regs.write(K0, sext32(va));
    regs.write(K1, if fetch { 0x44 } else { 0 });
}

// The registers of CP0 as the handler leaves them.
#[tactic(auto, using(crate::proofs::Handled::what_a_handler_leaves))]
fn handle_cp0(cp0: &mut Cp0, pc: u32, slot: bool, fetch: bool, va: u32)
    ensures { cp0.new ≡ law.handled_cp0 cp0.old pc slot fetch va }
{
    let code = if fetch {
        COHERENCY_FETCH
    } else {
        COHERENCY_DATA
    };
    cp0.set(EPC, return_address(pc, slot));
    cp0.set_field(BD, u32::from(slot));
    cp0.set_field(EXC_CODE, u32::from(code));
    cp0.set(BAD_VADDR, va);
}

/// Leaves the processor as the handler does: it goes on from EPC, in no delay slot, and the link is broken.
#[tactic(auto, unfolding(mips3_exec::specs::Pausing::handled))]
pub fn handle(cpu: &mut Cpu, fetch: bool, va: u32)
    ensures handled { cpu.new ≡ law.handled fetch va cpu.old }
    ensures ticks { cpu.new.ticks ≡ cpu.old.ticks }
    ensures halt { cpu.new.halt ≡ cpu.old.halt }
{
    let pc = return_address(cpu.pc, cpu.slot);
    handle_registers(&mut cpu.regs, fetch, va);
    handle_cp0(&mut cpu.cp0, cpu.pc, cpu.slot, fetch, va);
    cpu.link.clear();
    cpu.pc = pc;
    cpu.npc = pc.wrapping_add(4);
    cpu.slot = false;
}

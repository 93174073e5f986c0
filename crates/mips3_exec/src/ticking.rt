//! The tick and the run over any memory system.

ghost use Rattle.std.specs.Prelude.{◌≡◌, ℕ, ◌<◌, ◌+◌, ◌^◌, Some, None, true};
ghost use Rattle.mips3_exec.specs.declared.talk.Request.TheVariants.{Levels};
ghost use Rattle.mips3_exec.specs.declared.ticking.Tick.TheVariants.{Halted};
ghost use Rattle.mips3_exec.specs.Fixed.{HasFixed};
ghost use Rattle.mips3_exec.specs.Run.{run_of};
ghost use Rattle.mips3_exec.specs.Talk.{hold};
ghost use Rattle.mips3_exec.specs.Tick as law;

use crate::processor::Cpu;
use crate::stepping::step;
use crate::talk::{MemorySystem, Reply, Request, StepEnd};

/// How a tick ended.
#[derive(Clone, Copy)]
pub enum Tick {
    /// It ran.
    Ran,
    /// It took an exception or an interrupt, with this code of Cause.
    Trapped(u8),
    /// The run has ended, with this halt code.
    Halted(u32),
}

// Cause shows the levels of the lines.
fn ask_levels<M: MemorySystem>(cpu: &mut Cpu, memory: &mut M)
    ensures cpu { cpu.new ≡ law.with_levels cpu.old (M.ask_gives memory.old Request.Levels).reply }
    ensures memory { memory.new ≡ (M.ask_gives memory.old Request.Levels).memory }
    ensures ticks { cpu.new.ticks ≡ cpu.old.ticks }
{
    match memory.ask(Request::Levels) {
        Reply::Levels(levels) => cpu.cp0.lines(levels),
        _ => unreachable!(),
    }
}

// The inputs, a beat, the lines and the step.
fn open<M: MemorySystem>(cpu: &mut Cpu, memory: &mut M) -> StepEnd
    ensures end { result ≡ (hold M.ask_gives memory.old (law.opened cpu.old)).end }
    ensures cpu { cpu.new ≡ (hold M.ask_gives memory.old (law.opened cpu.old)).cpu }
    ensures memory { memory.new ≡ (hold M.ask_gives memory.old (law.opened cpu.old)).memory }
    ensures ticks { cpu.new.ticks ≡ cpu.old.ticks }
{
    let _ = memory.ask(Request::Inputs { tick: cpu.ticks });
    let _ = memory.ask(Request::Beat);
    ask_levels(cpu, memory);
    step(cpu, memory)
}

// Whether the step wrote Wired.
fn wrote_wired(end: StepEnd) -> bool
    ensures wired { result ≡ law.wrote_wired end }
{
    match end {
        StepEnd::WroteWired => true,
        _ => false,
    }
}

// The lines and the counts.
fn close<M: MemorySystem>(cpu: &mut Cpu, memory: &mut M, end: StepEnd)
    requires { cpu.old.ticks < 4294967295 }
    ensures cpu { cpu.new ≡ (hold M.ask_gives memory.old (law.closed cpu.old end)).cpu }
    ensures memory { memory.new ≡ (hold M.ask_gives memory.old (law.closed cpu.old end)).memory }
    ensures end { end ≡ (hold M.ask_gives memory.old (law.closed cpu.old end)).end }
{
    ask_levels(cpu, memory);
    cpu.count(wrote_wired(end));
}

// The talk of a tick.
#[tactic(auto, unfolding(crate::specs::Tick::tick_talk))]
fn talk<M: MemorySystem>(cpu: &mut Cpu, memory: &mut M) -> StepEnd
    requires { cpu.old.ticks < 4294967295 }
    ensures end { result ≡ (hold M.ask_gives memory.old (law.tick_talk cpu.old)).end }
    ensures cpu { cpu.new ≡ (hold M.ask_gives memory.old (law.tick_talk cpu.old)).cpu }
    ensures memory { memory.new ≡ (hold M.ask_gives memory.old (law.tick_talk cpu.old)).memory }
    ensures ticks { cpu.new.ticks ≡ cpu.old.ticks + 1 }
    ensures fixed { (config : ℕ) → HasFixed config cpu.old → HasFixed config cpu.new }
{
    let end = open(cpu, memory);
    close(cpu, memory, end);
    end
}

/// Makes one tick. After a halt it changes nothing, and answers the halt code again.
#[inline(always)]
#[tactic(auto, unfolding(crate::specs::Tick::tick_of))]
pub fn make_tick<M: MemorySystem>(cpu: &mut Cpu, memory: &mut M) -> Tick
    requires ticks { cpu.old.halt ≡ None → cpu.old.ticks < 4294967295 }
    ensures answer { result ≡ (law.tick_of M.ask_gives memory.old cpu.old).answer }
    ensures cpu { cpu.new ≡ (law.tick_of M.ask_gives memory.old cpu.old).cpu }
    ensures memory { memory.new ≡ (law.tick_of M.ask_gives memory.old cpu.old).memory }
    ensures ticks { law.goes_on result ≡ true → cpu.new.ticks ≡ cpu.old.ticks + 1 }
    ensures stands_still { (code : ℕ) → cpu.old.halt ≡ Some code →
        (cpu.new ≡ cpu.old) × (memory.new ≡ memory.old) × (result ≡ Tick.Halted code) }
    ensures fixed { (config : ℕ) → HasFixed config cpu.old → HasFixed config cpu.new }
{
    if let Some(code) = cpu.halt {
        return Tick::Halted(code);
    }
    match talk(cpu, memory) {
        StepEnd::Trapped(code) => Tick::Trapped(code),
        StepEnd::Went | StepEnd::WroteWired => match cpu.halt {
            Some(code) => Tick::Halted(code),
            None => Tick::Ran,
        },
    }
}

/// Makes so many ticks, up to one that halts.
pub fn make_run<M: MemorySystem>(cpu: &mut Cpu, memory: &mut M, steps: u32) -> Tick
    requires { cpu.old.ticks + steps < 2 ^ 32 }
    ensures answer { result ≡ (run_of M.ask_gives steps (record { cpu = cpu.old; memory = memory.old })).answer }
    ensures cpu { cpu.new ≡ (run_of M.ask_gives steps (record { cpu = cpu.old; memory = memory.old })).cpu }
    ensures memory { memory.new ≡ (run_of M.ask_gives steps (record { cpu = cpu.old; memory = memory.old })).memory }
    ensures fixed { (config : ℕ) → HasFixed config cpu.old → HasFixed config cpu.new }
{
    for step in 0..steps {
        match make_tick(cpu, memory) {
            Tick::Ran | Tick::Trapped(_) => {}
            end => return end,
        }
    }
    Tick::Ran
}

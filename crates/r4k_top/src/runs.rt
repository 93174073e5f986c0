//! Runs that are still to be made. All memory is taken before, so that the run itself takes none.

ghost use Rattle.std.specs.Prelude.{◌≡◌, ◌+◌, ◌*◌, ◌<◌, ◌≤◌, ◌^◌};
ghost use Rattle.machine_core.specs.AddressMap.{HasNoSecondary};
ghost use Rattle.machine_core.specs.Traced.{machine_in};

use flat_bridge::Bench;
use machine_core::Machine;

/// A run of a machine that is still to be made, for at most so many ticks, without a judge.
#[derive(Drop)]
pub struct MachineRun {
    pub machine: Machine,
    pub steps: u32,
    ghost most: { machine.cpu.ticks + steps < 2 ^ 32 },
    ghost calm: { machine.span_left ≡ 0 },
    ghost alone: { HasNoSecondary (machine_in machine).bus },
}

impl MachineRun {
    /// The run of a machine of which no tick was made.
    pub fn new(machine: Machine, steps: u32) -> MachineRun
        requires fresh { machine.cpu.ticks ≡ 0 }
        requires calm { machine.span_left ≡ 0 }
        requires alone { HasNoSecondary (machine_in machine).bus }
        ensures machine { result.machine ≡ machine }
        ensures steps { result.steps ≡ steps }
    {
        MachineRun { machine, steps }
    }
}

/// A run of a bench that is still to be made, for at most so many ticks, each event of which is judged.
#[derive(Drop)]
pub struct BenchRun {
    pub bench: Bench,
    pub steps: u32,
    ghost most: { bench.machine.cpu.ticks + steps < 2 ^ 32 },
}

impl BenchRun {
    /// The run of a bench of which no tick was made.
    pub fn new(bench: Bench, steps: u32) -> BenchRun
        requires fresh { bench.machine.cpu.ticks ≡ 0 }
        ensures bench { result.bench ≡ bench }
        ensures steps { result.steps ≡ steps }
    {
        BenchRun { bench, steps }
    }
}

/// A run that is still to be made, of which no trace is written.
#[derive(Drop)]
pub enum Untraced {
    /// For its report.
    Machine(MachineRun),
    /// For its report and the verdict.
    Bench(BenchRun),
}

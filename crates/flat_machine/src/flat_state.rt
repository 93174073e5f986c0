//! The flat machine: the processor with its memory.

ghost use Rattle.std.specs.Prelude.{◌≡◌, ◌+◌, ◌<◌, ◌≤◌, ◌^◌, ℕ, length, Some, None, IfOk, true};
ghost use Rattle.dma_devices.specs.DiskCommands.{largest_disk};
ghost use Rattle.mips3_exec.specs.declared.ticking.Tick.TheVariants.{Halted};
ghost use Rattle.mips3_exec.specs.Tick.{goes_on};

use crate::flat_memory::FlatMemory;
use crate::pausing::{handle, make_pause_tick, pause_length};
use dma_devices::RecordedDevices;
use elf_image::{Image, load};
use flat_ram::{Prom, Ram};
use input_script::Script;
use mips3_exec::{Cpu, Tick, make_run, make_tick};
use r4_shape::Shape;
use r4_words::Memory;
use run_report::View;
use std::alloc::Global;

/// A machine without caches.
#[derive(Drop)]
pub struct Flat {
    pub cpu: Cpu,
    pub memory: FlatMemory,
}

impl Flat {
    ghost use Rattle.flat_machine.specs.FlatMachine.{flat_reset_of, flat_shown_of, flat_tick_of};
    ghost use Rattle.flat_machine.specs.FlatRun.{flat_run_of};
    ghost use Rattle.flat_machine.specs.Pause as law;
    ghost use Rattle.run_report.specs.Shown.{shown_by};

    /// The flat machine at reset, with an image loaded into RAM that is zero elsewhere, a disk of these bytes, and the inputs of a
    /// script to come. Of the shape, Config alone tells.
    #[tactic(auto, unfolding(crate::specs::FlatMachine::flat_reset_of))]
    pub fn new(
        alloc: Global,
        shape: Shape,
        prom: &Prom,
        image: &Image<'_>,
        disk: Vec<u8>,
        script: Script,
    ) -> Result<Flat, Memory>
        requires disk { length disk.items ≤ largest_disk }
        ensures reset { IfOk result (λ flat. flat ≡ flat_reset_of shape prom.now image.now disk.items script) }
        ensures ticks { IfOk result (λ flat. flat.cpu.ticks ≡ 0) }
        ensures runs { IfOk result (λ flat. flat.cpu.halt ≡ None) }
    {
        let mut ram = Ram::new(alloc)?;
        load(image, &mut ram);
        let devices = RecordedDevices::new(alloc, disk, script, image.entry())?;
        Ok(Flat {
            cpu: Cpu::new(shape.config()),
            memory: FlatMemory {
                ram,
                prom: *prom,
                devices,
            },
        })
    }

    /// Makes one tick. After a halt it changes nothing, and answers the halt code again.
    #[tactic(auto, unfolding(crate::specs::FlatMachine::flat_tick_of))]
    pub fn tick(&mut self) -> Tick
        requires ticks { self.old.cpu.halt ≡ None → self.old.cpu.ticks < 4294967295 }
        ensures flat { self.new ≡ (flat_tick_of self.old).flat }
        ensures answer { result ≡ (flat_tick_of self.old).answer }
        ensures ticks { goes_on result ≡ true → self.new.cpu.ticks ≡ self.old.cpu.ticks + 1 }
        ensures stands_still { (code : ℕ) → self.old.cpu.halt ≡ Some code →
            (self.new ≡ self.old) × (result ≡ Tick.Halted code) }
    {
        make_tick(&mut self.cpu, &mut self.memory)
    }

    /// Makes so many ticks, up to one that halts.
    pub fn run(&mut self, steps: u32) -> Tick
        requires { self.old.cpu.ticks + steps < 2 ^ 32 }
        ensures flat { self.new ≡ (flat_run_of steps self.old).flat }
        ensures answer { result ≡ (flat_run_of steps self.old).answer }
    {
        make_run(&mut self.cpu, &mut self.memory, steps)
    }

    // Makes a tick without a step.
    #[tactic(auto, unfolding(crate::specs::Pause::pause_tick))]
    fn pause_tick(&mut self)
        requires { self.old.cpu.ticks < 4294967295 }
        ensures paused { self.new ≡ law.pause_tick self.old }
        ensures ticks { self.new.cpu.ticks ≡ self.old.cpu.ticks + 1 }
        ensures halt { self.new.cpu.halt ≡ self.old.cpu.halt }
    {
        make_pause_tick(&mut self.cpu, &mut self.memory);
    }

    // Makes so many of them.
    #[tactic(auto, using(crate::proofs::Runs::pause_none, crate::proofs::Runs::pause_more))]
    fn wait(&mut self, ticks: u32)
        requires { self.old.cpu.ticks + ticks < 2 ^ 32 }
        ensures waited { self.new ≡ law.pause_ticks ticks self.old }
        ensures ticks { self.new.cpu.ticks ≡ self.old.cpu.ticks + ticks }
        ensures halt { self.new.cpu.halt ≡ self.old.cpu.halt }
    {
        for step in 0..ticks {
            self.pause_tick();
        }
    }

    /// Makes the pause at an address, of a fetch or of an access to data: its ticks, in which the processor makes no step, and then
    /// what the handler of a coherency exception leaves.
    #[tactic(auto, unfolding(crate::specs::Pause::pause_of))]
    pub fn pause(&mut self, fetch: bool, va: u32)
        requires runs { self.old.cpu.halt ≡ None }
        requires ticks { self.old.cpu.ticks ≤ 4294967284 }
        ensures paused { self.new ≡ law.pause_of fetch va self.old }
        ensures ticks { self.new.cpu.ticks ≡ self.old.cpu.ticks + law.pause_length fetch }
        ensures runs { self.new.cpu.halt ≡ None }
    {
        self.wait(pause_length(fetch));
        handle(&mut self.cpu, fetch, va);
    }

    /// What the flat machine shows.
    pub fn view(&self) -> View<'_>
        ensures shown { shown_by result ≡ flat_shown_of self.now }
    {
        View {
            ticks: self.cpu.ticks,
            halt: self.cpu.halt,
            pc: self.cpu.pc,
            npc: self.cpu.npc,
            slot: self.cpu.slot,
            link: self.cpu.link.set,
            regs: &self.cpu.regs,
            cp0: &self.cpu.cp0,
            tlb: &self.cpu.tlb,
            sector: self.memory.devices.sector(),
            address: self.memory.devices.address(),
            status: self.memory.devices.status(),
            console: self.memory.devices.console(),
            disk: self.memory.devices.disk(),
        }
    }
}

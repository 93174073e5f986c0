//! Ticks of the processor: the verb of its step. `tick SETTING SETTING ..; SETTING ..; ..` begins at the reset of a processor whose
//! Config is 00028243, but with pc 80001000 and Status 00000000. Each part between semicolons makes its settings and then one
//! tick. The answer is the text of the instruction that the last tick found at pc and how it ended, then what it changed, then
//! what it asked of memory.
//!
//! - A setting is a general register by its name, `hi`, `lo`, `pc`, `npc`, `slot` or `link` (0 or 1), or `cN`, which is written as MTC0
//!   writes it; `pc` makes npc the next word. `count` ends so many ticks without a step, for Random and Count.
//! - `pairN=MASK/HI/LO0/LO1` stores a pair of the TLB, as TLBWI does with these in the registers.
//! - Memory has the same replies at every address: `word` to a fetch, `bytes` to a load, and the levels `lines` of IP2 to IP6.
//!   `fetch` and `data` have the manner of the reply: `served`, `bus` (a bus error), `coherency`, or `halt` with the code 2a. It
//!   stands until it is set again.
//! - The end is `ran`, `trapped CODE`, with the code decimal, or `halted CODE`. Then come pc, npc where it is not the next
//!   word, `slot` and `link` where they are set, and each register and each pair that the tick changed. Count and Random are told
//!   where the last part has the setting `counters`.
//! - An access is `F` (fetch), `L`, `S` or `C` (CACHE) with `c` or `u` for cached or not, `q` or `n` for quiet or not, and the physical
//!   address; then, but for a fetch, the virtual one of its lowest byte, its size or its code, and what is stored.
//!
//! All other numbers are hexadecimal.

ghost use Rattle.std.specs.Prelude.{◌<◌, IfSome};
ghost use Rattle.tlb_model.specs.Pairs.{IsPair};

use crate::instructions::{put_text, register_name};
use crate::scripted::{Manner, Scripted};
use cp0_regs::Cp0;
use cp0_regs::registers::{COUNT, ENTRY_HI, ENTRY_LO0, ENTRY_LO1, PAGE_MASK, RANDOM, STATUS};
use mips_text::register_of;
use mips3_alu::Regs;
use mips3_exec::{Access, Cpu, Request, Tick, make_tick};
use std::alloc::AllocError;
use tlb_model::{Pair, Tlb, stored_pair, zero_pair};

const CONFIG: u32 = 0x0002_8243;

// A processor, its memory system, and whether Count and Random are told.
#[derive(Drop)]
struct Scene {
    cpu: Cpu,
    memory: Scripted,
    counters: bool,
}

// The registers and pairs of a processor.
#[derive(Clone, Copy)]
struct Snapshot {
    regs: Regs,
    words: [u32; 32],
    pairs: [Pair; 48],
    pc: u32,
}

/// Appends the answer of a verb, and says whether it is this one.
pub fn put_answer(verb: &str, arguments: &str, out: &mut String) -> Result<bool, AllocError> {
    if verb != "tick" {
        return Ok(false);
    }
    let mut scene = new_scene();
    let mut before = snapshot_of(&scene.cpu);
    let mut end = None;
    for part in arguments.split(';') {
        let is_set = set_all(&mut scene, part.trim());
        before = snapshot_of(&scene.cpu);
        end = is_set.map(|()| ticked(&mut scene));
        if end.is_none() {
            break;
        }
    }
    match end {
        Some(end) => put_tick(&end, &before, &scene, out)?,
        None => out.push_str("?")?,
    }
    Ok(true)
}

fn new_scene() -> Scene {
    let mut cpu = Cpu::new(CONFIG);
    cpu.pc = 0x80001000;
    cpu.npc = 0x80001004;
    cpu.cp0.write(STATUS, 0);
    Scene {
        cpu,
        memory: Scripted {
            word: 0,
            fetching: Manner::Serves,
            bytes: 0,
            touching: Manner::Serves,
            levels: 0,
            fetched: None,
            touched: None,
        },
        counters: false,
    }
}

// Makes a tick.
fn ticked(scene: &mut Scene) -> Tick {
    scene.memory.fetched = None;
    scene.memory.touched = None;
    scene.cpu.ticks = 0;
    make_tick(&mut scene.cpu, &mut scene.memory)
}

fn snapshot_of(cpu: &Cpu) -> Snapshot {
    let mut words = [0; 32];
    for number in 0..32u8 {
        words[number as usize] = cpu.cp0.read(number);
    }
    Snapshot {
        regs: cpu.regs,
        words,
        pairs: pairs_of(&cpu.tlb),
        pc: cpu.pc,
    }
}

fn pairs_of(tlb: &Tlb) -> [Pair; 48] {
    let mut pairs = [zero_pair(); 48];
    for at in 0..48u32 {
        pairs[at as usize] = tlb.read(at);
    }
    pairs
}

// ---- settings

fn set_all(scene: &mut Scene, part: &str) -> Option<()> {
    scene.counters = false;
    for setting in part.split(' ') {
        set(scene, setting)?;
    }
    Some(())
}

fn set(scene: &mut Scene, setting: &str) -> Option<()> {
    if setting == "counters" {
        scene.counters = true;
        return Some(());
    }
    let (name, text) = setting.split_once('=')?;
    match name {
        "fetch" => scene.memory.fetching = manner_of(text)?,
        "data" => scene.memory.touching = manner_of(text)?,
        _ if name.starts_with("pair") => set_pair(&mut scene.cpu.tlb, name, text)?,
        _ => set_number(scene, name, u64::from_str_radix(text, 16).ok()?)?,
    }
    Some(())
}

fn manner_of(text: &str) -> Option<Manner> {
    match text {
        "served" => Some(Manner::Serves),
        "bus" => Some(Manner::Refuses),
        "coherency" => Some(Manner::Surprises),
        "halt" => Some(Manner::Ends(0x2a)),
        _ => None,
    }
}

fn set_number(scene: &mut Scene, name: &str, value: u64) -> Option<()> {
    match name {
        "bytes" => scene.memory.bytes = value,
        "hi" => scene.cpu.regs.hi = value,
        "lo" => scene.cpu.regs.lo = value,
        "link" => scene.cpu.link.set = value == 1,
        "slot" => scene.cpu.slot = value == 1,
        _ => return set_word(scene, name, u32::try_from(value).ok()).or(set_general(
            &mut scene.cpu.regs,
            name,
            value,
        )),
    }
    Some(())
}

// Sets what has a word.
fn set_word(scene: &mut Scene, name: &str, value: Option<u32>) -> Option<()> {
    let value = value?;
    match name {
        "word" => scene.memory.word = value,
        "lines" => scene.memory.levels = (value % 32) as u8,
        "npc" => scene.cpu.npc = value,
        "pc" => {
            scene.cpu.pc = value;
            scene.cpu.npc = value.wrapping_add(4);
        }
        "count" => count(&mut scene.cpu.cp0, value),
        _ => scene.cpu.cp0.write(number_of(name)?, value),
    }
    Some(())
}

// Ends so many ticks without a step.
fn count(cp0: &mut Cp0, ticks: u32) {
    for _ in 0..ticks {
        cp0.count(false);
    }
}

// The number of a register of CP0, `c0` to `c31`.
fn number_of(name: &str) -> Option<u8>
    ensures { IfSome result (λ number. number < 32) }
{
    let number = name.strip_prefix("c")?.parse::<u8>().ok()?;
    if number < 32 { Some(number) } else { None }
}

fn set_general(regs: &mut Regs, name: &str, value: u64) -> Option<()> {
    regs.write(register_of(name.as_bytes())?, value);
    Some(())
}

// Stores a pair of the TLB.
fn set_pair(tlb: &mut Tlb, name: &str, text: &str) -> Option<()> {
    let at = name.strip_prefix("pair")?.parse::<u32>().ok()?;
    let pair = pair_of(text)?;
    if at >= 48 {
        return None;
    }
    tlb.write(at, pair);
    Some(())
}

// The pair of four words, as it is stored.
#[tactic(auto, using(mips3_exec::proofs::System::pair_bits_only))]
fn pair_of(text: &str) -> Option<Pair>
    ensures { IfSome result IsPair }
{
    let mut held = Cp0::new(CONFIG);
    held.write(PAGE_MASK, part_at(text, 0)?);
    held.write(ENTRY_HI, part_at(text, 1)?);
    held.write(ENTRY_LO0, part_at(text, 2)?);
    held.write(ENTRY_LO1, part_at(text, 3)?);
    let mask = held.page_mask();
    let hi = held.read(ENTRY_HI);
    let lo0 = held.read(ENTRY_LO0);
    let lo1 = held.read(ENTRY_LO1);
    Some(stored_pair(mask, hi, lo0, lo1))
}

fn part_at(text: &str, index: usize) -> Option<u32> {
    u32::from_str_radix(text.split('/').nth(index)?, 16).ok()
}

// ---- answers

// Appends the instruction, the end of a tick, and what changed.
fn put_tick(
    end: &Tick,
    before: &Snapshot,
    scene: &Scene,
    out: &mut String,
) -> Result<(), AllocError> {
    if is_fetched(&scene.memory) {
        put_text(scene.memory.word, before.pc, out)?;
        out.push_str(": ")?;
    }
    put_end(end, out)?;
    put_place(&scene.cpu, out)?;
    let after = snapshot_of(&scene.cpu);
    put_registers(&before.regs, &after.regs, out)?;
    put_system(&before.words, &after.words, scene.counters, out)?;
    put_pairs(&before.pairs, &after.pairs, out)?;
    put_accesses(&scene.memory, out)
}

// Whether a word was fetched.
fn is_fetched(memory: &Scripted) -> bool {
    match memory.fetching {
        Manner::Serves | Manner::Ends(_) => memory.fetched.is_some(),
        _ => false,
    }
}

fn put_end(end: &Tick, out: &mut String) -> Result<(), AllocError> {
    match *end {
        Tick::Ran => out.push_str("ran"),
        Tick::Trapped(code) => write!(out, "trapped {code}"),
        Tick::Halted(code) => write!(out, "halted {code:08x}"),
    }
}

fn put_place(cpu: &Cpu, out: &mut String) -> Result<(), AllocError> {
    write!(out, " pc={:08x}", cpu.pc)?;
    if cpu.npc != cpu.pc.wrapping_add(4) {
        write!(out, " npc={:08x}", cpu.npc)?;
    }
    out.push_str(if cpu.slot { " slot" } else { "" })?;
    out.push_str(if cpu.link.may_store() { " link" } else { "" })
}

fn put_registers(before: &Regs, after: &Regs, out: &mut String) -> Result<(), AllocError> {
    for number in 0..32u8 {
        let (old, new) = (before.read(number), after.read(number));
        if old != new {
            write!(out, " {}={new:016x}", register_name(number))?;
        }
    }
    if before.hi != after.hi {
        write!(out, " hi={:016x}", after.hi)?;
    }
    if before.lo != after.lo {
        write!(out, " lo={:016x}", after.lo)?;
    }
    Ok(())
}

fn put_system(
    before: &[u32; 32],
    after: &[u32; 32],
    counters: bool,
    out: &mut String,
) -> Result<(), AllocError> {
    for (number, (old, new)) in before.iter().zip(after.iter()).enumerate() {
        let is_counter = number == usize::from(RANDOM) || number == usize::from(COUNT);
        if old != new && (counters || !is_counter) {
            write!(out, " c{number}={new:08x}")?;
        }
    }
    Ok(())
}

fn put_pairs(before: &[Pair; 48], after: &[Pair; 48], out: &mut String) -> Result<(), AllocError> {
    for (number, (old, new)) in before.iter().zip(after.iter()).enumerate() {
        if !is_same(old, new) {
            write!(out, " pair{number}={:08x}/{:08x}/", new.mask, new.hi)?;
            write!(out, "{:08x}/{:08x}", new.lo0, new.lo1)?;
        }
    }
    Ok(())
}

fn is_same(pair: &Pair, other: &Pair) -> bool {
    pair.mask == other.mask && pair.hi == other.hi && pair.lo0 == other.lo0 && pair.lo1 == other.lo1
}

fn put_accesses(memory: &Scripted, out: &mut String) -> Result<(), AllocError> {
    if let Some(access) = memory.fetched {
        put_access("F", &access, out)?;
    }
    match memory.touched {
        Some(Request::Load { access, size }) => {
            put_access("L", &access, out)?;
            write!(out, " {:08x} {size}", access.va)
        }
        Some(
            Request::Store {
                access,
                size,
                value,
            },
        ) => {
            put_access("S", &access, out)?;
            let digits = usize::from(size) * 2;
            write!(out, " {:08x} {size} {value:0digits$x}", access.va)
        }
        Some(Request::Cache { access, code, .. }) => {
            put_access("C", &access, out)?;
            write!(out, " {:08x} {code:02x}", access.va)
        }
        _ => Ok(()),
    }
}

fn put_access(kind: &str, access: &Access, out: &mut String) -> Result<(), AllocError> {
    write!(out, " {kind}")?;
    out.push_str(if access.cached { "c" } else { "u" })?;
    out.push_str(if access.quiet { "q" } else { "n" })?;
    write!(out, " {:09x}", access.pa)
}

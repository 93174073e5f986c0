//! The report, written to a sink line by line.

ghost use Rattle.std.specs.Prelude.{◌≡◌, ◌≤◌, true, length, take, drop, OnOk, OnErr};
ghost use Rattle.r4_ports.specs.Told.{Appended, AppendedPrefix, HasCause};
ghost use Rattle.r4_ports.specs.Writing.{Writes, stand};
ghost use Rattle.run_report.specs.Report as law;
ghost use Rattle.run_report.specs.Report.{report_of};
ghost use Rattle.run_report.specs.Shown.{shown_by};

use crate::lines::{
    bytes_line, disk_line, halves_line, out_line, pair_line, pc_line, register_line, system_line,
    ticks_line,
};
use crate::view::View;
use cp0_regs::Cp0;
use mips3_alu::Regs;
use r4_ports::{Pending, Sink, SinkFault, finish, write_line};
use tlb_model::Tlb;

// The eight lines of the general registers.
fn write_registers<K: Sink>(regs: &Regs, out: &mut K, pending: &mut Pending)
    ensures writes { Writes (stand K.written K.faults out.old pending.old)
        (stand K.written K.faults out.new pending.new) (law.register_lines regs.now 8) }
{
    for turn in 0..8 {
        write_line(&register_line(regs, 4 * turn), out, pending);
    }
}

// The lines of the processor.
#[tactic(auto, unfolding(crate::specs::Report::cpu_lines))]
fn write_cpu<K: Sink>(view: &View<'_>, out: &mut K, pending: &mut Pending)
    ensures writes { Writes (stand K.written K.faults out.old pending.old)
        (stand K.written K.faults out.new pending.new) (law.cpu_lines (shown_by view.now)) }
{
    write_line(&ticks_line(view.ticks, view.halt), out, pending);
    write_line(
        &pc_line(view.pc, view.npc, view.slot, view.link),
        out,
        pending,
    );
    write_line(&halves_line(view.regs), out, pending);
    write_registers(view.regs, out, pending);
}

// The five lines of CP0.
fn write_system<K: Sink>(cp0: &Cp0, out: &mut K, pending: &mut Pending)
    ensures writes { Writes (stand K.written K.faults out.old pending.old)
        (stand K.written K.faults out.new pending.new) (law.system_lines cp0.now 5) }
{
    for turn in 0..5 {
        write_line(&system_line(cp0, 4 * turn), out, pending);
    }
}

// The lines of the pairs that are not all zero.
fn write_pairs<K: Sink>(tlb: &Tlb, out: &mut K, pending: &mut Pending)
    ensures writes { Writes (stand K.written K.faults out.old pending.old)
        (stand K.written K.faults out.new pending.new) (law.pair_lines tlb.now 48) }
{
    for at in 0..48 {
        write_line(&pair_line(at as u8, tlb.read(at)), out, pending);
    }
}

// What follows the first bytes.
fn rest_from(bytes: &[u8], at: usize) -> &[u8]
    requires { at ≤ length bytes.now }
    ensures rest { result.now ≡ drop at bytes.now }
{
    &bytes[at..]
}

// The first bytes, at most so many.
#[tactic(auto, using(std::proofs::lemmas::List::take_all))]
fn first(bytes: &[u8], most: usize) -> &[u8]
    ensures bytes { result.now ≡ take most bytes.now }
    ensures small { length result.now ≤ most }
{
    if bytes.len() > most {
        &bytes[..most]
    } else {
        bytes
    }
}

// The bytes of a line that begins here.
fn line_at(bytes: &[u8], at: usize) -> &[u8]
    requires { at ≤ length bytes.now }
    ensures bytes { result.now ≡ take 32 (drop at bytes.now) }
    ensures small { length result.now ≤ 32 }
{
    first(rest_from(bytes, at), 32)
}

// The printed bytes, 32 a line.
fn write_bytes<K: Sink>(bytes: &[u8], out: &mut K, pending: &mut Pending)
    ensures writes { Writes (stand K.written K.faults out.old pending.old)
        (stand K.written K.faults out.new pending.new) (law.bytes_lines bytes.now (law.line_count (length bytes.now))) }
{
    for line in 0..bytes.len().div_ceil(32) {
        write_line(&bytes_line(line_at(bytes, 32 * line)), out, pending);
    }
}

// The lines of the console.
fn write_console<K: Sink>(bytes: &[u8], out: &mut K, pending: &mut Pending)
    ensures writes { Writes (stand K.written K.faults out.old pending.old)
        (stand K.written K.faults out.new pending.new) (law.console_lines bytes.now) }
{
    write_line(&out_line(bytes.len()), out, pending);
    write_bytes(bytes, out, pending);
}

/// Writes the report of a state, unless a write failed before.
pub fn put_report<K: Sink>(view: &View<'_>, out: &mut K, pending: &mut Pending)
    requires { view.now.status ≤ 7 }
    ensures writes { Writes (stand K.written K.faults out.old pending.old)
        (stand K.written K.faults out.new pending.new) (report_of (shown_by view.now)) }
{
    write_cpu(view, out, pending);
    write_system(view.cp0, out, pending);
    write_pairs(view.tlb, out, pending);
    write_line(
        &disk_line(view.sector, view.address, view.status),
        out,
        pending,
    );
    write_console(view.console, out, pending);
}

/// Writes the report of a state. After Ok it has gone out; where a write fails, a prefix of it was written.
pub fn write_report<K: Sink>(view: &View<'_>, out: &mut K) -> Result<(), SinkFault>
    requires { view.now.status ≤ 7 }
    ensures ok { OnOk result (Appended (K.written out.old) (K.written out.new) (report_of (shown_by view.now))) }
    ensures flushed { OnOk result (K.is_flushed out.new ≡ true) }
    ensures err { OnErr result
        (AppendedPrefix (K.written out.old) (K.written out.new) (report_of (shown_by view.now))) }
    ensures cause { HasCause (K.faults out.old) (K.faults out.new) result }
{
    let mut pending = Pending::new();
    put_report(view, out, &mut pending);
    finish(out, &mut pending)
}

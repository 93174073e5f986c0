//! The machine with caches and the flat machine, run beside each other.

use crate::arguments::{count_at, rest_of, word_at};
use crate::setting::{Setting, flat_of, image_of};
use access_trace::{Breach, Verdict};
use elf_image::read_image;
use flat_bridge::Bench;
use flat_machine::Flat;
use r4_ports::SureSink;
use r4_shape::{Shape, read_shape};
use run_report::{View, write_report};
use std::alloc::{AllocError, Global};

/// Both machines at the ends of their runs.
#[derive(Drop)]
pub struct Pair {
    pub bench: Bench,
    pub flat: Flat,
}

/// The machines of a case, made of the same parts and run for at most so many ticks.
pub fn pair_of(alloc: Global, setting: &Setting, arguments: &str) -> Option<Pair> {
    let shape = read_shape(word_at(arguments, 0))?;
    let steps = count_at(arguments, 1)?.min(1000000);
    let file = image_of(alloc, rest_of(rest_of(arguments)))?;
    let bench = bench_run(alloc, setting, shape, &file, steps)?;
    let flat = flat_run(alloc, setting, shape, &file, steps)?;
    Some(Pair { bench, flat })
}

// The machine with caches and its judge, at the end of a run of a file's image.
fn bench_run(
    alloc: Global,
    setting: &Setting,
    shape: Shape,
    file: &[u8],
    steps: u32,
) -> Option<Bench> {
    if shape.sc() || file.len() > 16777216 {
        return None;
    }
    let image = read_image(file).ok()?;
    let script = setting.script(alloc)?;
    let disk = setting.disk(alloc)?;
    let mut bench = Bench::new(alloc, shape, setting.prom(), &image, disk, script).ok()?;
    bench.run(steps.min(1000000));
    Some(bench)
}

// The flat machine at the end of such a run.
fn flat_run(
    alloc: Global,
    setting: &Setting,
    shape: Shape,
    file: &[u8],
    steps: u32,
) -> Option<Flat> {
    let mut flat = flat_of(alloc, setting, shape, file)?;
    if flat.cpu.ticks == 0 {
        let _ = flat.run(steps);
    }
    Some(flat)
}

/// Appends the verdict, and whether both machines are the same to see.
pub fn put_compared(alloc: Global, pair: &Pair, out: &mut String) -> Result<(), AllocError> {
    put_verdict(pair.bench.verdict(), out)?;
    let (here, there) = (pair.bench.view(), pair.flat.view());
    let is_same = here.disk == there.disk && has_same_report(alloc, &here, &there);
    out.push_str(if is_same { " same" } else { " differs" })
}

fn put_verdict(verdict: Verdict, out: &mut String) -> Result<(), AllocError> {
    match verdict {
        Verdict::Yes => out.push_str("yes"),
        Verdict::No { event, breach } => write!(out, "no {event} {}", rule_name(breach)),
    }
}

// The name of the rule that is broken.
fn rule_name(breach: Breach) -> &'static str {
    match breach {
        Breach::Forge => "forge",
        Breach::Peek => "peek",
        Breach::Unquiet => "unquiet",
        Breach::Old => "old",
        Breach::Owed => "owed",
        Breach::Lost => "lost",
    }
}

// Whether the reports are the same.
fn has_same_report(alloc: Global, here: &View<'_>, there: &View<'_>) -> bool {
    match (report_of(alloc, here), report_of(alloc, there)) {
        (Some(here), Some(there)) => here.bytes() == there.bytes(),
        _ => false,
    }
}

// The report of what a machine shows.
fn report_of(alloc: Global, view: &View<'_>) -> Option<SureSink> {
    if view.status > 7 {
        return None;
    }
    let mut sink = SureSink::new(alloc, 8192).ok()?;
    write_report(view, &mut sink).ok()?;
    Some(sink)
}

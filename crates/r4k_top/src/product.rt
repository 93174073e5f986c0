//! What a job makes, and its way out: first its text to the sink, then its file to the shelf.

ghost use Rattle.std.specs.Prelude.{◌≡◌, ◌≢◌, true, OnOk, OnErr, IsNone, Some};
ghost use Rattle.r4_ports.specs.Told.{Appended, AppendedPrefix, HasCause};
ghost use Rattle.flat_bridge.specs.Runs.{RunWasFlat};
ghost use Rattle.r4k_top.specs.Answers as answers;
ghost use Rattle.r4k_top.specs.Answers.{IsComplete};
ghost use Rattle.r4k_top.specs.Wanted.{puts_to};
ghost use Rattle.machine_core.specs.Traced.{machine_in};
ghost use Rattle.r4k_top.specs.Outcome.{file_name, named_file, summary_by};
ghost use Rattle.r4k_top.specs.Clauses.{HasPut, PutRose, OthersStay};
ghost use Rattle.r4k_top.specs.EndShown.{out_shown, file_shown, finished_shown, machine_shown, checked_shown};
ghost use Rattle.r4k_top.specs.EndShown.{untraced_shown, traced_shown, made_shown, UntracedWillBeFlat, RunWillBeFlat};
ghost use Rattle.r4k_top.specs.Making.{IsLate, Placed, Delivered};

use crate::files::ImageFile;
use crate::runs::{BenchRun, MachineRun, Untraced};
use crate::statuses::Status;
use access_trace::Verdict;
use flat_bridge::Bench;
use image_listing::write_listing;
use judged_run::write_checked;
use load_maker::{Summary, write_summary};
use machine_core::Machine;
use r4_ports::{PutFault, Shelf, Sink, SinkFault, write_all};
use run_report::{write_report, write_verdict};
use trace_check::Judge;

/// What is made, and has only to go out.
#[derive(Drop)]
pub enum Finished<'a> {
    /// The machine at the end of a run, of which the report is written, and the name under which its disk is put, where there
    /// is one.
    Report {
        machine: Machine,
        out: Option<String>,
    },
    /// The same with the verdict on the run, which is written too.
    Checked {
        bench: Bench,
        out: Option<String>,
    },
    /// The judge of a trace, of which the verdict is written.
    Judged(Judge),
    /// An image, of which the listing is written.
    Listing(ImageFile),
    /// A file, which is put under a name.
    File {
        name: &'a str,
        bytes: Vec<u8>,
    },
    /// A load of so many words that was run and judged, of which the summary is written, and its image, which is put under a name.
    Load {
        bench: Bench,
        words: u32,
        name: &'a str,
        image: ImageFile,
    },
}

/// What a job makes.
#[derive(Drop)]
pub enum Product<'a> {
    /// What is made already.
    Finished(Finished<'a>),
    /// A run that is made before its text is written, and the name under which its disk is put then, where there is one.
    Untraced { run: Untraced, out: Option<String> },
    /// A run that is made while its trace is written, and the name under which its disk is put then, where there is one.
    Traced { run: BenchRun, out: Option<String> },
}

// What is told of the run of a load.
fn summary_of(bench: &Bench, words: u32) -> Summary
    ensures { result ≡ summary_by words bench.now.judge.first (machine_in bench.now.machine) }
{
    Summary {
        words,
        ticks: bench.ticks(),
        halt: bench.halted(),
        verdict: bench.verdict(),
    }
}

// Writes the text, so that it has gone out. The text beside a file is empty, and is flushed as every other.
fn write_text<K: Sink>(finished: &Finished<'_>, out: &mut K) -> Result<(), SinkFault>
    ensures ok { OnOk result (Appended (K.written out.old) (K.written out.new) (finished_shown finished.now).text) }
    ensures flushed { OnOk result (K.is_flushed out.new ≡ true) }
    ensures err { OnErr result
        (AppendedPrefix (K.written out.old) (K.written out.new) (finished_shown finished.now).text) }
    ensures cause { HasCause (K.faults out.old) (K.faults out.new) result }
{
    match finished {
        Finished::Report { machine, out: _ } => write_report(&machine.view(), out),
        Finished::Checked { bench, out: _ } => write_checked(bench.judged(), out),
        Finished::Judged(judge) => write_verdict(&judge.verdict(), &judge.first(), out),
        Finished::Listing(image) => write_listing(&image.image(), out),
        Finished::File { .. } => write_all(b"", out),
        Finished::Load { bench, words, .. } => write_summary(&summary_of(bench, *words), out),
    }
}

// The status with which a verdict is given.
fn status_of_verdict(verdict: Verdict) -> Status
    ensures status { result ≡ answers.status_of_verdict (Some verdict) }
    ensures late { IsLate result }
    ensures complete { result ≢ Status.WriteFault }
{
    match verdict {
        Verdict::Yes => Status::Done,
        Verdict::No { event, breach } => Status::Breach { event, breach },
    }
}

// The status with which a job is complete.
fn status_of(finished: &Finished<'_>) -> Status
    ensures status { result ≡ answers.status_of_verdict (finished_shown finished.now).verdict }
    ensures late { IsLate result }
    ensures complete { result ≢ Status.WriteFault }
{
    match finished {
        Finished::Checked { bench, out: _ } => status_of_verdict(bench.verdict()),
        Finished::Judged(judge) => status_of_verdict(judge.verdict()),
        Finished::Report { .. }
        | Finished::Listing(_)
        | Finished::File { .. }
        | Finished::Load { .. } => Status::Done,
    }
}

/// A file that is put: its name and its bytes.
#[derive(Clone, Copy)]
struct FileMade<'a> {
    name: &'a str,
    bytes: &'a [u8],
}

// A disk under its name, where there is one.
fn disk_made<'a>(disk: &'a [u8], out: &'a Option<String>) -> Option<FileMade<'a>>
    ensures file { file_shown result ≡ named_file (out_shown out.now) disk.now }
{
    match out {
        Some(name) => Some(FileMade {
            name: name.as_str(),
            bytes: disk,
        }),
        None => None,
    }
}

// The file of what is made, where it has one.
fn file_of<'a>(finished: &'a Finished<'_>) -> Option<FileMade<'a>>
    ensures file { file_shown result ≡ (finished_shown finished.now).file }
{
    match finished {
        Finished::Report { machine, out } => disk_made(machine.view().disk, out),
        Finished::Checked { bench, out } => disk_made(bench.view().disk, out),
        Finished::Judged(_) | Finished::Listing(_) => None,
        Finished::File { name, bytes } => Some(FileMade { name, bytes }),
        Finished::Load { name, image, .. } => Some(FileMade {
            name,
            bytes: image.bytes(),
        }),
    }
}

// Puts the file, if there is one.
fn put_file<F: Shelf>(finished: &Finished<'_>, shelf: &mut F) -> Result<(), PutFault>
    ensures ok { OnOk result (HasPut (F.held shelf.old) (F.held shelf.new) (finished_shown finished.now).file) }
    ensures cause { OnErr result
        (PutRose (file_name (finished_shown finished.now).file) (F.put_faults shelf.old) (F.put_faults shelf.new)) }
    ensures none { IsNone (finished_shown finished.now).file → shelf.new ≡ shelf.old }
    ensures others { OthersStay (file_name (finished_shown finished.now).file) (F.held shelf.old) (F.held shelf.new) }
    ensures asked { Appended (F.asked shelf.old) (F.asked shelf.new)
        (puts_to (file_name (finished_shown finished.now).file)) }
{
    match file_of(finished) {
        Some(file) => shelf.put(file.name, file.bytes),
        None => Ok(()),
    }
}

// Puts the file of what is made, if there is one, and gives the job's own status, or that the put failed.
fn place<F: Shelf>(finished: &Finished<'_>, shelf: &mut F) -> Status
    ensures { Placed F.held F.asked F.put_faults shelf.old shelf.new (finished_shown finished.now).verdict
        (finished_shown finished.now).file result }
{
    match put_file(finished, shelf) {
        Ok(()) => status_of(finished),
        Err(_) => Status::WriteFault,
    }
}

// Writes and puts what is made.
#[tactic(auto, using(crate::proofs::Delivery::delivered, crate::proofs::Delivery::undelivered))]
fn deliver_finished<F: Shelf, K: Sink>(
    finished: &Finished<'_>,
    shelf: &mut F,
    out: &mut K,
) -> Status
    ensures { Delivered F.held F.asked F.put_faults shelf.old shelf.new (K.written out.old) (K.written out.new)
        (K.is_flushed out.new) (K.faults out.old) (K.faults out.new) (finished_shown finished.now) result }
{
    match write_text(finished, out) {
        Ok(()) => place(finished, shelf),
        Err(_) => Status::WriteFault,
    }
}

// Makes the run of a machine, for its report.
fn run_machine<'a>(run: MachineRun, out: Option<String>) -> Finished<'a>
    ensures finished { finished_shown result ≡ machine_shown (out_shown out) run.steps run.machine }
{
    let MachineRun { mut machine, steps } = run;
    let _ = machine.run(steps);
    Finished::Report { machine, out }
}

// Makes the run of a bench, for its report and the verdict.
fn run_bench<'a>(run: BenchRun, out: Option<String>) -> Finished<'a>
    ensures finished { finished_shown result ≡ checked_shown (out_shown out) run.steps run.bench }
    ensures flat { RunWasFlat run.steps run.bench }
{
    let BenchRun { mut bench, steps } = run;
    bench.run(steps);
    Finished::Checked { bench, out }
}

// Makes a run of which no trace is written.
fn run_untraced<'a>(run: Untraced, out: Option<String>) -> Finished<'a>
    ensures finished { finished_shown result ≡ untraced_shown (out_shown out) run }
    ensures flat { UntracedWillBeFlat run }
{
    match run {
        Untraced::Machine(run) => run_machine(run, out),
        Untraced::Bench(run) => run_bench(run, out),
    }
}

// Makes a run, and then writes and puts what comes of it.
fn deliver_untraced<F: Shelf, K: Sink>(
    run: Untraced,
    name: Option<String>,
    shelf: &mut F,
    out: &mut K,
) -> Status
    ensures delivered { Delivered F.held F.asked F.put_faults shelf.old shelf.new (K.written out.old) (K.written out.new)
        (K.is_flushed out.new) (K.faults out.old) (K.faults out.new)
        (untraced_shown (out_shown name) run) result }
    ensures flat { UntracedWillBeFlat run }
{
    let finished = run_untraced(run, name);
    deliver_finished(&finished, shelf, out)
}

// Makes a run while its trace is written, and then writes and puts the rest.
fn deliver_traced<F: Shelf, K: Sink>(
    run: BenchRun,
    name: Option<String>,
    shelf: &mut F,
    out: &mut K,
) -> Status
    ensures delivered { Delivered F.held F.asked F.put_faults shelf.old shelf.new (K.written out.old) (K.written out.new)
        (K.is_flushed out.new) (K.faults out.old) (K.faults out.new)
        (traced_shown (out_shown name) run.steps run.bench) result }
    ensures flat { IsComplete result → RunWasFlat run.steps run.bench }
{
    let BenchRun { mut bench, steps } = run;
    match bench.write_traced(steps, out) {
        Ok(()) => place(&Finished::Checked { bench, out: name }, shelf),
        Err(_) => Status::WriteFault,
    }
}

/// Writes the text that a job makes, and puts its file. The answer is Done, or Breach where the verdict is no, after the whole
/// text has gone out and the file was put; or WriteFault: a write or the flush failed, after a prefix of the text, and then the
/// shelf stays; or the put did, after the whole text has gone out. Without a file the shelf stays; with one, its other files do.
/// A run that was made on the way is one of the flat machine, where no event of it breaks a rule.
pub fn deliver<F: Shelf, K: Sink>(product: Product<'_>, shelf: &mut F, out: &mut K) -> Status
    ensures delivered { Delivered F.held F.asked F.put_faults shelf.old shelf.new (K.written out.old) (K.written out.new)
        (K.is_flushed out.new) (K.faults out.old) (K.faults out.new) (made_shown product.entry) result }
    ensures flat { IsComplete result → RunWillBeFlat product.entry }
{
    match product {
        Product::Finished(finished) => deliver_finished(&finished, shelf, out),
        Product::Untraced { run, out: name } => deliver_untraced(run, name, shelf, out),
        Product::Traced { run, out: name } => deliver_traced(run, name, shelf, out),
    }
}

//! What the commands make, each of the files that it wants: a straight line of readers, and then the job. Nothing is
//! written or put here.

ghost use Rattle.std.specs.Prelude.{◌≡◌, ◌≤◌, [], length, IfOk, IfErr, OnOk, Some};
ghost use Rattle.r4_ports.specs.Told.{Rose, Appended};
ghost use Rattle.flat_machine.specs.FlatMachine.{flat_reset_of};
ghost use Rattle.machine_core.specs.Machine.{reset_of};
ghost use Rattle.machine_core.specs.Traced.{machine_in};
ghost use Rattle.trace_check.specs.Verdicts.{book_of};
ghost use Rattle.flat_bridge.specs.Beside.{StandsBeside};
ghost use Rattle.judged_run.specs.JudgedMachines.{Begins};
ghost use Rattle.prom_code.specs.PromWords.{boot_prom};
ghost use Rattle.r4k_top.specs.Command as law;
ghost use Rattle.r4k_top.specs.CommandShown.{name_shown, plan_shown, command_shown};
ghost use Rattle.r4k_top.specs.Wanted.{disk_limit, wanted_by};
ghost use Rattle.r4k_top.specs.Outcome as outcome;
ghost use Rattle.r4k_top.specs.Outcome.{Makes, Refuses, run_job, load_shape, load_job};
ghost use Rattle.r4k_top.specs.Answers.{status_of};
ghost use Rattle.r4k_top.specs.EndShown.{out_shown, made_shown, RunWillBeFlat};
ghost use Rattle.r4k_top.specs.FlatRuns.{IsFlatWhereYes, ToldFlat, YesIsFlat};
ghost use Rattle.r4k_top.specs.Making.{MayStop, AllAccepted, fetches, MadeOf, StoppedWith, IsSetup};

use crate::commands::Command;
use crate::files::{
    ImageFile, load_image, read_disk_of, read_image_file, read_judged, read_script_of, read_source,
};
use crate::plan::{Inquiry, Load, Plan};
use crate::product::{Finished, Product};
use crate::runs::{BenchRun, MachineRun, Untraced};
use crate::statuses::Status;
use crate::telling::Telling;
use elf_image::write_image;
use flat_bridge::Bench;
use input_script::Script;
use load_maker::make_words;
use machine_core::Machine;
use prom_code::prom;
use r4_ports::Shelf;
use r4_shape::Shape;
use std::alloc::Global;

/// What a run is made of.
#[derive(Drop)]
pub struct Setup {
    pub image: ImageFile,
    pub script: Script,
    pub disk: Vec<u8>,
}

// Makes the name under which the changed disk is put.
fn name_out(alloc: Global, plan: &Plan<'_>) -> Result<Option<String>, Status>
    ensures name { IfOk result (λ out. out_shown out ≡ law.disk_out (name_shown plan.now.disk)) }
    ensures stopped { IfErr result (λ status. status ≡ Status.Memory) }
{
    match plan.disk {
        None => Ok(None),
        Some(name) => {
            let mut out = String::from_str(alloc, name)?;
            out.push_str(".out")?;
            Ok(Some(out))
        }
    }
}

// The run of an image from reset for at most so many ticks, for its report.
fn report_run<'a>(
    alloc: Global,
    plan: &Plan<'_>,
    setup: Setup,
    out: Option<String>,
) -> Result<Product<'a>, Status>
    requires { length setup.disk.items ≤ disk_limit }
    ensures made { IfOk result (λ product. run_job Telling.Report plan.now.shape plan.now.steps (out_shown out)
        (reset_of plan.now.shape boot_prom setup.image setup.disk.items setup.script) ≡ Makes (made_shown product)) }
    ensures stopped { IfErr result (λ status. status ≡ Status.Memory) }
{
    let Setup {
        image,
        script,
        disk,
    } = setup;
    let prom = prom();
    let machine = Machine::new(alloc, plan.shape, &prom, &image.image(), disk, script)?;
    let run = Untraced::Machine(MachineRun::new(machine, plan.steps));
    Ok(Product::Untraced { run, out })
}

// The bench of a run, of which no tick was made.
fn start_bench(alloc: Global, plan: &Plan<'_>, setup: Setup) -> Result<Bench, Status>
    requires { length setup.disk.items ≤ disk_limit }
    ensures begins { IfOk result (Begins plan.now.shape
        (reset_of plan.now.shape boot_prom setup.image setup.disk.items setup.script)) }
    ensures flat { IfOk result (λ bench. StandsBeside (machine_in bench.machine) (book_of bench.judge)
        (flat_reset_of plan.now.shape boot_prom setup.image setup.disk.items setup.script)) }
    ensures stopped { IfErr result (λ status. status ≡ Status.Memory) }
{
    let Setup {
        image,
        script,
        disk,
    } = setup;
    let prom = prom();
    Ok(Bench::new(alloc, plan.shape, &prom, &image.image(), disk, script)?)
}

// The run of an image from reset for at most so many ticks, for its report and the verdict.
#[tactic(auto, using(crate::proofs::FlatEnds::untraced_run))]
fn check_run<'a>(
    alloc: Global,
    plan: &Plan<'_>,
    setup: Setup,
    out: Option<String>,
) -> Result<Product<'a>, Status>
    requires { length setup.disk.items ≤ disk_limit }
    ensures made { IfOk result (λ product. run_job Telling.Verdict plan.now.shape plan.now.steps (out_shown out)
        (reset_of plan.now.shape boot_prom setup.image setup.disk.items setup.script) ≡ Makes (made_shown product)) }
    ensures flat { IfOk result (λ product. RunWillBeFlat product →
        IsFlatWhereYes plan.now.shape plan.now.steps (reset_of plan.now.shape boot_prom setup.image setup.disk.items setup.script)
        (flat_reset_of plan.now.shape boot_prom setup.image setup.disk.items setup.script)) }
    ensures stopped { IfErr result (λ status. status ≡ Status.Memory) }
{
    let bench = start_bench(alloc, plan, setup)?;
    let run = Untraced::Bench(BenchRun::new(bench, plan.steps));
    Ok(Product::Untraced { run, out })
}

// The run of an image from reset for at most so many ticks, which is made while its trace is written.
#[tactic(auto, using(crate::proofs::FlatEnds::traced_run))]
fn trace_run<'a>(
    alloc: Global,
    plan: &Plan<'_>,
    setup: Setup,
    out: Option<String>,
) -> Result<Product<'a>, Status>
    requires { length setup.disk.items ≤ disk_limit }
    ensures made { IfOk result (λ product. run_job Telling.Trace plan.now.shape plan.now.steps (out_shown out)
        (reset_of plan.now.shape boot_prom setup.image setup.disk.items setup.script) ≡ Makes (made_shown product)) }
    ensures flat { IfOk result (λ product. RunWillBeFlat product →
        IsFlatWhereYes plan.now.shape plan.now.steps (reset_of plan.now.shape boot_prom setup.image setup.disk.items setup.script)
        (flat_reset_of plan.now.shape boot_prom setup.image setup.disk.items setup.script)) }
    ensures stopped { IfErr result (λ status. status ≡ Status.Memory) }
{
    let bench = start_bench(alloc, plan, setup)?;
    let run = BenchRun::new(bench, plan.steps);
    Ok(Product::Traced { run, out })
}

// The run of an image from reset for at most so many ticks, which is made on its way out. All memory is taken here, before its
// first tick.
fn run_setup<'a>(
    alloc: Global,
    plan: &Plan<'_>,
    setup: Setup,
    out: Option<String>,
) -> Result<Product<'a>, Status>
    requires { length setup.disk.items ≤ disk_limit }
    ensures made { IfOk result (λ product. run_job plan.now.telling plan.now.shape plan.now.steps (out_shown out)
        (reset_of plan.now.shape boot_prom setup.image setup.disk.items setup.script) ≡ Makes (made_shown product)) }
    ensures flat { IfOk result (λ product. RunWillBeFlat product →
        ToldFlat plan.now.telling plan.now.shape plan.now.steps
        (reset_of plan.now.shape boot_prom setup.image setup.disk.items setup.script)
        (flat_reset_of plan.now.shape boot_prom setup.image setup.disk.items setup.script)) }
    ensures stopped { IfErr result (λ status. status ≡ Status.Memory) }
{
    match plan.telling {
        Telling::Report => report_run(alloc, plan, setup, out),
        Telling::Verdict => check_run(alloc, plan, setup, out),
        Telling::Trace => trace_run(alloc, plan, setup, out),
    }
}

// Reads the files of a run.
fn read_setup<F: Shelf>(alloc: Global, plan: &Plan<'_>, shelf: &mut F) -> Result<Setup, Status>
    ensures setup { IfOk result (λ setup.
        IsSetup (F.held shelf.old) (plan_shown plan.now) setup.image setup.script setup.disk.items) }
    ensures short { IfOk result (λ setup. length setup.disk.items ≤ disk_limit) }
    ensures accepted { OnOk result (AllAccepted (F.held shelf.old) (wanted_by (plan_shown plan.now))) }
    ensures stopped { IfErr result (StoppedWith (Some (law.Run (plan_shown plan.now)))
        (F.held shelf.old) (F.asked shelf.old) (F.asked shelf.new)
        (Rose (F.fetch_faults shelf.old) (F.fetch_faults shelf.new))) }
    ensures held { F.held shelf.new ≡ F.held shelf.old }
    ensures put_faults { F.put_faults shelf.new ≡ F.put_faults shelf.old }
    ensures asked { OnOk result (Appended (F.asked shelf.old) (F.asked shelf.new)
        (fetches (wanted_by (plan_shown plan.now)))) }
{
    let image = read_image_file(alloc, plan.image, shelf)?;
    let script = read_script_of(alloc, plan, shelf)?;
    let disk = read_disk_of(alloc, plan, shelf)?;
    Ok(Setup {
        image,
        script,
        disk,
    })
}

// Makes the report of a run.
fn make_report<'a, F: Shelf>(
    alloc: Global,
    plan: &Plan<'_>,
    shelf: &mut F,
) -> Result<Product<'a>, Status>
    ensures made { IfOk result (λ product. MadeOf (Some (law.Run (plan_shown plan.now)))
        (F.held shelf.old) (F.asked shelf.old) (F.asked shelf.new) (made_shown product)) }
    ensures flat { IfOk result (λ product. RunWillBeFlat product →
        YesIsFlat (Some (law.Run (plan_shown plan.now))) (F.held shelf.old)) }
    ensures stopped { IfErr result (StoppedWith (Some (law.Run (plan_shown plan.now)))
        (F.held shelf.old) (F.asked shelf.old) (F.asked shelf.new)
        (Rose (F.fetch_faults shelf.old) (F.fetch_faults shelf.new))) }
    ensures held { F.held shelf.new ≡ F.held shelf.old }
    ensures put_faults { F.put_faults shelf.new ≡ F.put_faults shelf.old }
{
    let setup = read_setup(alloc, plan, shelf)?;
    let out = name_out(alloc, plan)?;
    run_setup(alloc, plan, setup, out)
}

// Makes the image of a source, for a name.
fn make_image<'a, F: Shelf>(
    alloc: Global,
    source: &str,
    out: &'a str,
    shelf: &mut F,
) -> Result<Product<'a>, Status>
    ensures made { IfOk result (λ product. MadeOf (Some (law.Assemble source.now out.now))
        (F.held shelf.old) (F.asked shelf.old) (F.asked shelf.new) (made_shown product)) }
    ensures stopped { IfErr result (StoppedWith (Some (law.Assemble source.now out.now))
        (F.held shelf.old) (F.asked shelf.old) (F.asked shelf.new)
        (Rose (F.fetch_faults shelf.old) (F.fetch_faults shelf.new))) }
    ensures held { F.held shelf.new ≡ F.held shelf.old }
    ensures put_faults { F.put_faults shelf.new ≡ F.put_faults shelf.old }
{
    let built = read_source(alloc, source, shelf)?;
    let bytes = write_image(alloc, built.base, built.entry, &built.bytes)?;
    Ok(Product::Finished(Finished::File { name: out, bytes }))
}

// Makes the verdict on a trace.
fn make_verdict<'a, F: Shelf>(
    alloc: Global,
    inquiry: &Inquiry<'_>,
    shelf: &mut F,
) -> Result<Product<'a>, Status>
    ensures made { IfOk result (λ product. MadeOf (Some (law.Judge inquiry.now.shape inquiry.now.trace.now))
        (F.held shelf.old) (F.asked shelf.old) (F.asked shelf.new) (made_shown product)) }
    ensures stopped { IfErr result (StoppedWith (Some (law.Judge inquiry.now.shape inquiry.now.trace.now))
        (F.held shelf.old) (F.asked shelf.old) (F.asked shelf.new)
        (Rose (F.fetch_faults shelf.old) (F.fetch_faults shelf.new))) }
    ensures held { F.held shelf.new ≡ F.held shelf.old }
    ensures put_faults { F.put_faults shelf.new ≡ F.put_faults shelf.old }
{
    let judge = read_judged(alloc, inquiry, shelf)?;
    Ok(Product::Finished(Finished::Judged(judge)))
}

// Makes the listing of an image.
fn make_listing<'a, F: Shelf>(
    alloc: Global,
    image: &str,
    shelf: &mut F,
) -> Result<Product<'a>, Status>
    ensures made { IfOk result (λ product. MadeOf (Some (law.Disassemble image.now))
        (F.held shelf.old) (F.asked shelf.old) (F.asked shelf.new) (made_shown product)) }
    ensures stopped { IfErr result (StoppedWith (Some (law.Disassemble image.now))
        (F.held shelf.old) (F.asked shelf.old) (F.asked shelf.new)
        (Rose (F.fetch_faults shelf.old) (F.fetch_faults shelf.new))) }
    ensures held { F.held shelf.new ≡ F.held shelf.old }
    ensures put_faults { F.put_faults shelf.new ≡ F.put_faults shelf.old }
{
    let image = read_image_file(alloc, image, shelf)?;
    Ok(Product::Finished(Finished::Listing(image)))
}

// The bench of an image on pc/32, without a script and a disk, of which no tick was made.
fn load_bench(alloc: Global, image: &ImageFile) -> Result<Bench, Status>
    ensures begins { IfOk result (Begins load_shape (reset_of load_shape boot_prom image.now [] [])) }
    ensures stopped { IfErr result (λ status. status ≡ Status.Memory) }
{
    let shape = Shape::primary_alone(8192, 32);
    let prom = prom();
    let script = Script::empty(alloc);
    Ok(Bench::new(alloc, shape, &prom, &image.image(), Vec::new(alloc), script)?)
}

// Runs a load of so many words for at most so many ticks, for its summary. All memory is taken before the first tick.
#[tactic(auto, using(crate::proofs::Loads::load_made))]
fn run_load<'a>(
    alloc: Global,
    words: u32,
    steps: u32,
    name: &'a str,
    image: ImageFile,
) -> Result<Product<'a>, Status>
    ensures made { IfOk result (λ product. outcome.load_from_reset boot_prom words steps name.now image ≡ Makes (made_shown product)) }
    ensures stopped { IfErr result (λ status. status ≡ Status.Memory) }
{
    let mut bench = load_bench(alloc, &image)?;
    bench.run(steps);
    Ok(Product::Finished(Finished::Load {
        bench,
        words,
        name,
        image,
    }))
}

// Makes a load, and runs it.
fn make_load<'a>(alloc: Global, load: &Load<'a>) -> Result<Product<'a>, Status>
    ensures made { IfOk result (λ product.
        load_job boot_prom load.now.number load.now.count load.now.out.now ≡ Makes (made_shown product)) }
    ensures stopped { IfErr result (λ status. status ≡ Status.Memory) }
{
    let words = make_words(alloc, load.number, load.count)?;
    let image = load_image(alloc, &words)?;
    run_load(
        alloc,
        words.len() as u32,
        5 * load.count + 15,
        load.out,
        image,
    )
}

/// Makes what a command asks for, or answers why nothing is made.
pub fn make<'a, F: Shelf>(
    alloc: Global,
    command: &Command<'a>,
    shelf: &mut F,
) -> Result<Product<'a>, Status>
    ensures made { IfOk result (λ product. MadeOf (Some (command_shown command.now))
        (F.held shelf.old) (F.asked shelf.old) (F.asked shelf.new) (made_shown product)) }
    ensures flat { IfOk result (λ product. RunWillBeFlat product →
        YesIsFlat (Some (command_shown command.now)) (F.held shelf.old)) }
    ensures stopped { IfErr result (StoppedWith (Some (command_shown command.now))
        (F.held shelf.old) (F.asked shelf.old) (F.asked shelf.new)
        (Rose (F.fetch_faults shelf.old) (F.fetch_faults shelf.new))) }
    ensures held { F.held shelf.new ≡ F.held shelf.old }
    ensures put_faults { F.put_faults shelf.new ≡ F.put_faults shelf.old }
{
    match command {
        Command::Run(plan) => make_report(alloc, plan, shelf),
        Command::Judge(inquiry) => make_verdict(alloc, inquiry, shelf),
        Command::Assemble { source, out } => make_image(alloc, *source, *out, shelf),
        Command::Disassemble { image } => make_listing(alloc, *image, shelf),
        Command::Make(load) => make_load(alloc, load),
    }
}

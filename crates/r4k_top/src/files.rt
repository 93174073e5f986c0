//! Files of the shelf, fetched whole: one reader for each kind of file. A reader answers what is of its kind, or the status
//! with which the call ends.

ghost use Rattle.std.specs.Prelude.{◌≡◌, ◌≤◌, ◌<◌, ◌^◌, ◌∷◌, [], length, false, IfOk, IfErr, OnOk, Some};
ghost use Rattle.r4_ports.specs.Told.{Rose, Appended, fetch_of};
ghost use Rattle.mips_asm.specs.Assembly as assembly;
ghost use Rattle.access_trace.specs.Traces.{trace_of};
ghost use Rattle.input_script.specs.Grammar as script;
ghost use Rattle.r4k_top.specs.CommandShown.{name_shown};
ghost use Rattle.r4k_top.specs.Wanted.{file_limit, disk_limit, trace_limit, an_image, a_script, a_disk, a_trace, a_source, if_given};
ghost use Rattle.r4k_top.specs.Wanted.{script_refusal, trace_refusal, line_refusal};
ghost use Rattle.elf_image.specs.Written.{image_of};
ghost use Rattle.load_maker.specs.Program.{program_base, word_bytes};
ghost use Rattle.r4k_top.specs.Outcome.{Makes, judged, judge_job};
ghost use Rattle.r4k_top.specs.Clauses.{OfFile};
ghost use Rattle.r4k_top.specs.Making.{refused_status, MayStop, RefusedAs, GivenRefusedAs, Accepted, AllAccepted};
ghost use Rattle.r4k_top.specs.Making.{OfGiven, OfScript, fetches};
ghost use Rattle.r4k_top.specs.declared.statuses.Status.TheVariants.{TooLong};

use crate::plan::{Inquiry, Plan};
use crate::statuses::Status;
use access_trace::TraceFault;
use elf_image::{Image, read_image, write_image};
use input_script::{Script, ScriptFault, read_script};
use load_maker::{PROGRAM_BASE, word_bytes};
use mips_asm::{AsmFault, Built, assemble};
use r4_ports::{FetchFault, Shelf};
use r4_shape::Shape;
use std::alloc::Global;
use std::marker::Model;
use trace_check::{Judge, judge_text};

/// The most bytes of an image, of a script and of a source.
pub const FILE_LIMIT: usize = 16777216;

/// The most bytes of a disk.
pub const DISK_LIMIT: usize = 33554432;

/// The most bytes of a trace.
pub const TRACE_LIMIT: usize = 67108864;

/// A file, whole. The shelf is asked for one byte more than the limit, which is enough to tell that it is too long.
fn fetch_file<F: Shelf>(
    alloc: Global,
    name: &str,
    limit: usize,
    shelf: &mut F,
) -> Result<Vec<u8>, Status>
    requires { limit < 2 ^ 32 }
    ensures file { IfOk result (λ v. OfFile (F.held shelf.old) name.now (λ bytes. v.items ≡ bytes)) }
    ensures short { IfOk result (λ v. length v.items ≤ limit) }
    ensures stopped { IfErr result (MayStop (Rose (F.fetch_faults shelf.old) (F.fetch_faults shelf.new))
        (λ status. (status ≡ TooLong) × OfFile (F.held shelf.old) name.now (λ bytes. limit < length bytes))) }

    ensures held { F.held shelf.new ≡ F.held shelf.old }
    ensures later { F.fetch_faults shelf.old ≤ F.fetch_faults shelf.new }
    ensures put_faults { F.put_faults shelf.new ≡ F.put_faults shelf.old }
    ensures asked { Appended (F.asked shelf.old) (F.asked shelf.new) (fetch_of name.now ∷ []) }
{
    match shelf.fetch(alloc, name, limit + 1) {
        Ok(file) if file.len() > limit => Err(Status::TooLong),
        Ok(file) => Ok(file),
        Err(FetchFault::Failed) => Err(Status::ReadFault),
        Err(FetchFault::Memory) => Err(Status::Memory),
    }
}

/// A file of at most `FILE_LIMIT` bytes that meets all rules of images. Contracts see its bytes.
#[derive(Drop)]
pub struct ImageFile {
    bytes: Vec<u8>,
}

impl Model for ImageFile {
    ghost use Rattle.std.specs.Prelude.{◌≡◌, ◌≤◌, List, ℕ, None, length};
    ghost use Rattle.elf_image.specs.Rules.{image_fault};
    ghost use Rattle.r4k_top.specs.Wanted.{file_limit};

    ghost Value = { List ℕ };

    ghost view = { λ file. file.bytes.items };

    ghost invariant = { λ file. (image_fault file.bytes.items ≡ None) × (length file.bytes.items ≤ file_limit) };
}

impl ImageFile {
    /// The image.
    pub fn image(&self) -> Image<'_>
        ensures { result ≡ self.now }
    {
        match read_image(&self.bytes) {
            Ok(image) => image,
            Err(_) => unreachable!(),
        }
    }

    /// Its bytes.
    pub fn bytes(&self) -> &[u8]
        ensures { result.now ≡ self.now }
    {
        self.bytes.as_slice()
    }
}

/// The image of the words of a load.
#[tactic(auto, using(crate::proofs::Loads::length_image))]
pub fn load_image(alloc: Global, words: &[u32]) -> Result<ImageFile, Status>
    requires { length words.now ≤ 500010 }
    ensures image { IfOk result (λ image. image ≡ image_of program_base program_base (word_bytes words.now)) }
    ensures stopped { IfErr result (λ status. status ≡ Status.Memory) }
{
    let body = word_bytes(alloc, words)?;
    let bytes = write_image(alloc, PROGRAM_BASE, PROGRAM_BASE, &body)?;
    Ok(ImageFile { bytes })
}

/// Reads an image.
pub fn read_image_file<F: Shelf>(
    alloc: Global,
    name: &str,
    shelf: &mut F,
) -> Result<ImageFile, Status>
    ensures file { IfOk result (λ file. OfFile (F.held shelf.old) name.now (λ bytes. file ≡ bytes)) }
    ensures accepted { OnOk result (Accepted (F.held shelf.old) (an_image name.now)) }
    ensures stopped { IfErr result (MayStop (Rose (F.fetch_faults shelf.old) (F.fetch_faults shelf.new))
        (RefusedAs (F.held shelf.old) (an_image name.now))) }

    ensures held { F.held shelf.new ≡ F.held shelf.old }
    ensures later { F.fetch_faults shelf.old ≤ F.fetch_faults shelf.new }
    ensures put_faults { F.put_faults shelf.new ≡ F.put_faults shelf.old }
    ensures asked { Appended (F.asked shelf.old) (F.asked shelf.new) (fetch_of name.now ∷ []) }
{
    let bytes = fetch_file(alloc, name, FILE_LIMIT, shelf)?;
    match read_image(&bytes) {
        Ok(_) => {}
        Err(fault) => {
            return Err(Status::BadImage {
                rule: fault.rule,
                offset: fault.offset,
            });
        }
    }
    Ok(ImageFile { bytes })
}

// The script of a text.
#[tactic(auto, using(input_script::proofs::Outcomes::text_without_fault, input_script::proofs::Outcomes::text_with_fault))]
fn parse_script(alloc: Global, text: &[u8]) -> Result<Script, Status>
    requires { length text.now ≤ file_limit }
    ensures script { IfOk result (λ inputs. script.script_text text.now ≡ script.Inputs inputs) }
    ensures stopped { IfErr result (MayStop ⊥
        (λ status. refused_status (script_refusal (script.script_text text.now)) ≡ Some status)) }
{
    match read_script(alloc, text) {
        Ok(script) => Ok(script),
        Err(ScriptFault::Bad { line, why }) => Err(Status::BadScript { line, why }),
        Err(ScriptFault::Memory) => Err(Status::Memory),
    }
}

// Reads a script.
fn read_script_file<F: Shelf>(alloc: Global, name: &str, shelf: &mut F) -> Result<Script, Status>
    ensures script { IfOk result (λ inputs. OfFile (F.held shelf.old) name.now
        (λ bytes. script.script_text bytes ≡ script.Inputs inputs)) }
    ensures accepted { OnOk result (Accepted (F.held shelf.old) (a_script name.now)) }
    ensures stopped { IfErr result (MayStop (Rose (F.fetch_faults shelf.old) (F.fetch_faults shelf.new))
        (RefusedAs (F.held shelf.old) (a_script name.now))) }

    ensures held { F.held shelf.new ≡ F.held shelf.old }
    ensures later { F.fetch_faults shelf.old ≤ F.fetch_faults shelf.new }
    ensures put_faults { F.put_faults shelf.new ≡ F.put_faults shelf.old }
    ensures asked { Appended (F.asked shelf.old) (F.asked shelf.new) (fetch_of name.now ∷ []) }
{
    let text = fetch_file(alloc, name, FILE_LIMIT, shelf)?;
    parse_script(alloc, &text)
}

/// Reads the script, where one is given; where none is, it is empty.
pub fn read_script_of<F: Shelf>(
    alloc: Global,
    plan: &Plan<'_>,
    shelf: &mut F,
) -> Result<Script, Status>
    ensures script { IfOk result (OfScript (F.held shelf.old) (name_shown plan.now.script)) }
    ensures accepted { OnOk result (AllAccepted (F.held shelf.old) (if_given a_script (name_shown plan.now.script))) }
    ensures stopped { IfErr result (MayStop (Rose (F.fetch_faults shelf.old) (F.fetch_faults shelf.new))
        (GivenRefusedAs (F.held shelf.old) a_script (name_shown plan.now.script))) }

    ensures held { F.held shelf.new ≡ F.held shelf.old }
    ensures later { F.fetch_faults shelf.old ≤ F.fetch_faults shelf.new }
    ensures put_faults { F.put_faults shelf.new ≡ F.put_faults shelf.old }
    ensures asked { Appended (F.asked shelf.old) (F.asked shelf.new)
        (fetches (if_given a_script (name_shown plan.now.script))) }
{
    match plan.script {
        Some(name) => read_script_file(alloc, name, shelf),
        None => Ok(Script::empty(alloc)),
    }
}

/// Reads the disk, where one is given; where none is, it has no bytes.
pub fn read_disk_of<F: Shelf>(
    alloc: Global,
    plan: &Plan<'_>,
    shelf: &mut F,
) -> Result<Vec<u8>, Status>
    ensures disk { IfOk result (λ disk. OfGiven (F.held shelf.old) (name_shown plan.now.disk)
        (λ bytes. disk.items ≡ bytes)) }
    ensures short { IfOk result (λ disk. length disk.items ≤ disk_limit) }
    ensures accepted { OnOk result (AllAccepted (F.held shelf.old) (if_given a_disk (name_shown plan.now.disk))) }
    ensures stopped { IfErr result (MayStop (Rose (F.fetch_faults shelf.old) (F.fetch_faults shelf.new))
        (GivenRefusedAs (F.held shelf.old) a_disk (name_shown plan.now.disk))) }

    ensures held { F.held shelf.new ≡ F.held shelf.old }
    ensures later { F.fetch_faults shelf.old ≤ F.fetch_faults shelf.new }
    ensures put_faults { F.put_faults shelf.new ≡ F.put_faults shelf.old }
    ensures asked { Appended (F.asked shelf.old) (F.asked shelf.new)
        (fetches (if_given a_disk (name_shown plan.now.disk))) }
{
    match plan.disk {
        Some(name) => fetch_file(alloc, name, DISK_LIMIT, shelf),
        None => Ok(Vec::new(alloc)),
    }
}

// The judge of the events of a text.
fn judge_file(alloc: Global, shape: Shape, text: &[u8]) -> Result<Judge, Status>
    requires primary { shape.sc ≡ false }
    requires short { length text.now ≤ trace_limit }
    ensures judged { IfOk result (λ judge. judge_job shape (trace_of text.now) ≡ Makes (judged judge.first)) }
    ensures good { OnOk result (trace_refusal (trace_of text.now) ≡ None) }
    ensures stopped { IfErr result (MayStop ⊥
        (λ status. refused_status (trace_refusal (trace_of text.now)) ≡ Some status)) }
{
    match judge_text(alloc, shape, text) {
        Ok(judge) => Ok(judge),
        Err(TraceFault::BadLine { line }) => Err(Status::BadTrace { line }),
        Err(TraceFault::Memory) => Err(Status::Memory),
    }
}

/// Reads a trace, and judges its events.
pub fn read_judged<F: Shelf>(
    alloc: Global,
    inquiry: &Inquiry<'_>,
    shelf: &mut F,
) -> Result<Judge, Status>
    ensures judged { IfOk result (λ judge. OfFile (F.held shelf.old) inquiry.now.trace.now
        (λ bytes. judge_job inquiry.now.shape (trace_of bytes) ≡ Makes (judged judge.first))) }
    ensures accepted { OnOk result (Accepted (F.held shelf.old) (a_trace inquiry.now.trace.now)) }
    ensures stopped { IfErr result (MayStop (Rose (F.fetch_faults shelf.old) (F.fetch_faults shelf.new))
        (RefusedAs (F.held shelf.old) (a_trace inquiry.now.trace.now))) }

    ensures held { F.held shelf.new ≡ F.held shelf.old }
    ensures later { F.fetch_faults shelf.old ≤ F.fetch_faults shelf.new }
    ensures put_faults { F.put_faults shelf.new ≡ F.put_faults shelf.old }
    ensures asked { Appended (F.asked shelf.old) (F.asked shelf.new) (fetch_of inquiry.now.trace.now ∷ []) }
{
    let text = fetch_file(alloc, inquiry.trace, TRACE_LIMIT, shelf)?;
    judge_file(alloc, inquiry.shape, &text)
}

// Assembles a source.
#[tactic(auto, using(mips_asm::proofs::Outcomes::image_by_facts, mips_asm::proofs::Outcomes::refused_by_facts))]
fn assemble_source(alloc: Global, source: &[u8]) -> Result<Built, Status>
    requires { length source.now ≤ file_limit }
    ensures built { IfOk result (λ built.
        assembly.assembled source.now ≡ assembly.Image built.base built.entry built.bytes.items) }
    ensures size { IfOk result (λ built. length built.bytes.items ≤ 8388608) }
    ensures stopped { IfErr result (MayStop ⊥
        (λ status. refused_status (line_refusal (assembly.assembled source.now)) ≡ Some status)) }
{
    match assemble(alloc, source) {
        Ok(built) => Ok(built),
        Err(AsmFault::Bad { line, why }) => Err(Status::BadSource { line, why }),
        Err(AsmFault::Memory) => Err(Status::Memory),
    }
}

/// Reads a source, and assembles it.
pub fn read_source<F: Shelf>(alloc: Global, name: &str, shelf: &mut F) -> Result<Built, Status>
    ensures built { IfOk result (λ built. OfFile (F.held shelf.old) name.now (λ bytes.
        assembly.assembled bytes ≡ assembly.Image built.base built.entry built.bytes.items)) }
    ensures size { IfOk result (λ built. length built.bytes.items ≤ 8388608) }
    ensures accepted { OnOk result (Accepted (F.held shelf.old) (a_source name.now)) }
    ensures stopped { IfErr result (MayStop (Rose (F.fetch_faults shelf.old) (F.fetch_faults shelf.new))
        (RefusedAs (F.held shelf.old) (a_source name.now))) }

    ensures held { F.held shelf.new ≡ F.held shelf.old }
    ensures later { F.fetch_faults shelf.old ≤ F.fetch_faults shelf.new }
    ensures put_faults { F.put_faults shelf.new ≡ F.put_faults shelf.old }
    ensures asked { Appended (F.asked shelf.old) (F.asked shelf.new) (fetch_of name.now ∷ []) }
{
    let source = fetch_file(alloc, name, FILE_LIMIT, shelf)?;
    assemble_source(alloc, &source)
}

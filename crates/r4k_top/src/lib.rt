//! The top call: what the words of a command line say is done over a shelf of files and a sink.
//!
//! Reading order: `plan` is what a run is made by; `commands` reads the words; `files` has a reader for each kind of file;
//! `job` makes what a command asks for; `product` is what is made, and its way out; `statuses` says how the program ended, in
//! numbers and lines. `workstation` is the call; its clauses say when each answer comes and what stands after it, by the
//! definitions of `specs/Command.antt`, `specs/Wanted.antt`, `specs/Outcome.antt`, `specs/Stands.antt` and, for what Done promises of a
//! run, `specs/FlatRuns.antt`.
#![tactic(auto)]

ghost use Rattle.std.specs.Prelude.{◌≡◌, ◌⊎◌, IsNone, ◌↔◌};
ghost use Rattle.r4_ports.specs.Told.{Rose};
ghost use Rattle.r4k_top.specs.Command.{command_of, out_name};
ghost use Rattle.r4k_top.specs.Answers.{MayAnswer};
ghost use Rattle.r4k_top.specs.Clauses.{EndsWith, PutRose};
ghost use Rattle.r4k_top.specs.Stands.{Stands, ports_of, outside};
ghost use Rattle.r4k_top.specs.FlatRuns.{DoneIsFlat};

pub mod commands;
pub mod files;
pub mod job;
pub mod plan;
pub mod product;
pub mod runs;
pub mod statuses;
pub mod sure_ports;
pub mod telling;

use crate::commands::read_command;
pub use crate::files::FILE_LIMIT;
use crate::job::make;
use crate::product::deliver;
pub use access_trace::Breach;
pub use elf_image::ImageRule;
pub use input_script::ScriptWhy;
pub use mips_text::AsmWhy;
use r4_ports::{Shelf, Sink};
pub use statuses::{Status, report_status, status_number, write_status};
use std::alloc::Global;

/// Does what the words say: it fetches the files that the command wants, makes what it asks for, and then writes that to the
/// sink and puts it on the shelf.
pub fn workstation<F: Shelf, K: Sink>(
    alloc: Global,
    words: &Vec<String>,
    shelf: &mut F,
    out: &mut K,
) -> Status
    // Usage comes exactly where the words are no command. Every answer is the status of what the words come to over the
    // files that are held, but Memory, which is free, and ReadFault and WriteFault, which have a cause outside.
    ensures usage { (result ≡ Status.Usage) ↔ IsNone (command_of words.now) }
    ensures answer { MayAnswer (Rose (F.fetch_faults shelf.old) (F.fetch_faults shelf.new))
        (Rose (K.faults out.old) (K.faults out.new)
        ⊎ PutRose (out_name (command_of words.now)) (F.put_faults shelf.old) (F.put_faults shelf.new))
        (EndsWith (command_of words.now) (F.held shelf.old)) result }

    // What stands after it is one row of a table by the answer: nothing is touched, nothing is made, a file is refused, all is made, or a
    // write or the put has failed.
    ensures stands { Stands (ports_of F.held F.asked F.put_faults K.written K.is_flushed K.faults) (command_of words.now)
        (outside shelf.old out.old) (outside shelf.new out.new) result }

    // After Done of `check` and `trace` the run is that of the flat machine without caches.
    ensures flat { result ≡ Status.Done → DoneIsFlat (command_of words.now) (F.held shelf.old) }
{
    let Some(command) = read_command(words) else {
        return Status::Usage;
    };
    match make(alloc, &command, shelf) {
        Ok(product) => deliver(product, shelf, out),
        Err(status) => status,
    }
}

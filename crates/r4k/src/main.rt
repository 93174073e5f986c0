//! The program: the words, the real shelf and sink, the top call, and its status.
//!
//! The shelf and the sink are `host_ports`. Everything else is `r4k_top`: `workstation` does what the words say, and
//! `report_status` tells how it ended.
#![tactic(auto)]

use host_ports::{FileShelf, StdSink};
use r4k_top::{Status, report_status, workstation};
use std::alloc::{AllocError, Global};
use std::process::ExitCode;
use std::{env, io};

// The words after the program's name; none where one of them is no UTF-8.
fn words_of(rt: &HostRuntime, alloc: Global) -> Result<Vec<String>, AllocError> {
    let mut words = Vec::new(alloc);
    match env::args(rt) {
        Ok(args) => {
            for word in args.skip(1) {
                words.push(word)?;
            }
        }
        Err(error) => {
            if error.kind() == io::ErrorKind::OutOfMemory {
                return Err(AllocError);
            }
        }
    }
    Ok(words)
}

// Does what the words say.
fn run(rt: &HostRuntime) -> Status {
    let alloc = rt.alloc();
    let Ok(words) = words_of(rt, alloc) else {
        return Status::Memory;
    };
    let mut shelf = FileShelf::new(rt, alloc);
    let mut out = StdSink::new(io::writer(rt));
    workstation(alloc, &words, &mut shelf, &mut out)
}

fn main(rt: HostRuntime) -> ExitCode {
    let mut complaints = StdSink::new(rt.stderr());
    ExitCode::from(report_status(&run(&rt), &mut complaints))
}

//! Plays a script of cases through the top call, over a shelf and a sink in memory.
//!
//! The script stands on standard input, and says in itself what must come: below each command line stand the lines that it
//! must come to, each behind a bar and a blank. The program passes over those lines, prints every other line as it stands,
//! and below each command line what it came to, marked in the same way. So the file `stdout`, which the gate compares with
//! what is printed, is the text of `stdin` again, and a case is added by the same lines in both files.
//!
//! `fault` is why a line is refused; `text` reads numbers and bytes; `scene` is the outside of a case; `seen` carries out a
//! command line; `shown` prints what it came to; `verbs` has a function a verb; `status_text` reads a status; `watched` is a shelf that
//! keeps what it is asked for.
#![tactic(auto)]

mod fault;
mod scene;
mod seen;
mod shown;
mod status_text;
mod text;
mod verbs;
mod watched;

use fault::Fault;
use scene::Scene;
use std::alloc::{AllocError, Global};
use std::io;
use std::io::{BufRead, BufReader};
use verbs::carry_out;

// Plays a line of the script that is not expected.
fn play(alloc: Global, scene: &mut Scene, line: &str, out: &mut String) -> Result<(), AllocError> {
    writeln!(out, "{line}")?;
    let (verb, rest) = line.split_once(' ').unwrap_or((line, ""));
    match carry_out(alloc, scene, verb, rest, out) {
        Ok(()) => Ok(()),
        Err(Fault::Unread) => out.push_str("| this line is not read\n"),
        Err(Fault::Memory) => Err(AllocError),
    }
}

fn main(rt: HostRuntime) -> io::Result<()> {
    let alloc = rt.alloc();
    let mut out = String::new(alloc);
    let mut scene = Scene::new(alloc);
    for line in BufReader::new(alloc, rt.reader())?.lines(alloc) {
        let line = line?;
        if !line.starts_with("| ") {
            play(alloc, &mut scene, line.as_str(), &mut out)?;
        }
    }
    rt.print(out)
}

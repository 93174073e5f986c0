//! Plays a script of cases through the public calls of the trace and of the rules of cache discipline.
//!
//! A line `# title` is printed as it stands. A line `VERB ARGUMENTS = EXPECTED` is a case: the program computes what the
//! call of that verb answers, and prints the case with the answer in the expected one's place. So the file `stdout` is the
//! same text as `stdin`: a case says in itself what must come, and a further case is a line and no code. An argument that
//! is none, or a verb that there is not, is answered by a question mark.
//!
//! `arguments` reads the parts of a case; each other module has the verbs of one library: `events` those of an event and
//! its line, `traces` those of a whole trace, `rules` those of the ledger and of the judge.
#![tactic(auto)]

mod arguments;
mod events;
mod rules;
mod traces;

use std::alloc::{AllocError, Global};
use std::io;
use std::io::{BufRead, BufReader};

// Appends what the call of a verb answers.
fn put_answer(
    alloc: Global,
    verb: &str,
    arguments: &str,
    out: &mut String,
) -> Result<(), AllocError> {
    let is_known = events::put_answer(alloc, verb, arguments, out)?
        || traces::put_answer(alloc, verb, arguments, out)?
        || rules::put_answer(alloc, verb, arguments, out)?;
    if is_known { Ok(()) } else { out.push_str("?") }
}

// Plays a line of the script.
fn play(alloc: Global, line: &str, out: &mut String) -> Result<(), AllocError> {
    if line.starts_with("# ") {
        return writeln!(out, "{line}");
    }
    let (case, _expected) = line.split_once(" = ").unwrap_or((line, ""));
    let (verb, arguments) = case.split_once(' ').unwrap_or((case, ""));
    write!(out, "{case} = ")?;
    put_answer(alloc, verb, arguments, out)?;
    out.push_str("\n")
}

fn main(rt: HostRuntime) -> io::Result<()> {
    let alloc = rt.alloc();
    let mut out = String::new(alloc);
    for line in BufReader::new(alloc, rt.reader())?.lines(alloc) {
        play(alloc, line?.as_str(), &mut out)?;
    }
    rt.print(out)
}

//! Plays a script of cases through the public calls of the devices and of their inputs.
//!
//! A line `# title` is printed as it stands. A line `VERB ARGUMENTS = EXPECTED` is a case: the program computes what the
//! call of that verb answers, and prints the case with the answer in the expected one's place. So the file `stdout` is the
//! same text as `stdin`: a case says in itself what must come, and a further case is a line and no code. An argument that
//! is none, or a verb that there is not, is answered by a question mark.
//!
//! `scripts` has the verbs of the scripts, and `scenes` the one of the devices, whose operations stand in `operations`. A module's
//! `put_answer` says whether the verb is one of its own. `arguments` reads the parts of a case.
#![tactic(auto)]

mod arguments;
mod operations;
mod scenes;
mod scripts;

use std::alloc::{AllocError, Global};
use std::io;
use std::io::{BufRead, BufReader};

// Appends what the call of a verb answers.
fn put_answer(
    alloc: Global,
    verb: &str,
    arguments: &str,
    out: &mut String,
) -> Result<(), AllocError> {
    let is_known = scripts::put_answer(alloc, verb, arguments, out)?
        || scenes::put_answer(alloc, verb, arguments, out)?;
    if is_known { Ok(()) } else { out.push_str("?") }
}

// Plays a line of the script.
fn play(alloc: Global, line: &str, out: &mut String) -> Result<(), AllocError> {
    if line.starts_with("# ") {
        return writeln!(out, "{line}");
    }
    let (case, _expected) = line.split_once(" = ").unwrap_or((line, ""));
    let (verb, arguments) = case.split_once(' ').unwrap_or((case, ""));
    write!(out, "{case} = ")?;
    put_answer(alloc, verb, arguments, out)?;
    out.push_str("\n")
}

fn main(rt: HostRuntime) -> io::Result<()> {
    let alloc = rt.alloc();
    let mut out = String::new(alloc);
    for line in BufReader::new(alloc, rt.reader())?.lines(alloc) {
        play(alloc, line?.as_str(), &mut out)?;
    }
    rt.print(out)
}

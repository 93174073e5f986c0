//! Plays a script of cases through the public calls of the flat machine, alone and beside the machine with caches.
//!
//! A line `# title` is printed as it stands. A line `VERB ARGUMENTS = EXPECTED` is a case: the program computes what the
//! call of that verb answers, and prints the case with the answer in the expected one's place. So the file `stdout` is the
//! same text as `stdin`: a case says in itself what must come, and a further case is a line and no code. An argument that
//! is none, or a verb that there is not, is answered by a question mark.
//!
//! `setting` has the verbs that say what the next machine is made of, and makes it; `moving` those that move the flat machine on, and
//! `stepping` the machine with caches; and `showing` those that show their states. `arguments` reads the parts of a case.
//!
//! `beside SHAPE STEPS SOURCE` makes the machine with caches and the flat machine of the image of a source, and runs each for at most so
//! many ticks. The answer is the verdict on the first, `yes` or `no EVENT RULE`, and then `same` or `differs`: whether both show the
//! same at the end, by their reports and by the bytes of their disks. `beside` makes the runs, and compares them.
#![tactic(auto)]

mod arguments;
mod beside;
mod moving;
mod setting;
mod showing;
mod stepping;

use crate::beside::{Pair, pair_of, put_compared};
use crate::setting::Setting;
use flat_bridge::Bench;
use flat_machine::Flat;
use std::alloc::{AllocError, Global};
use std::io;
use std::io::{BufRead, BufReader};

// What the next machine is made of, and the machines of the cases so far.
#[derive(Drop)]
struct Stage {
    setting: Setting,
    flat: Option<Flat>,
    bench: Option<Bench>,
}

// Runs both machines of a case, appends what comes of it, and keeps them.
fn put_beside(
    alloc: Global,
    stage: &mut Stage,
    arguments: &str,
    out: &mut String,
) -> Result<(), AllocError> {
    let Some(pair) = pair_of(alloc, &stage.setting, arguments) else {
        return out.push_str("?");
    };
    put_compared(alloc, &pair, out)?;
    let Pair { bench, flat } = pair;
    stage.bench = Some(bench);
    stage.flat = Some(flat);
    Ok(())
}

// Appends what the call of a verb answers.
fn put_answer(
    alloc: Global,
    stage: &mut Stage,
    verb: &str,
    arguments: &str,
    out: &mut String,
) -> Result<(), AllocError> {
    if verb == "beside" {
        return put_beside(alloc, stage, arguments, out);
    }
    let is_known = setting::put_answer(alloc, &mut stage.setting, verb, arguments, out)?
        || setting::put_made(alloc, &stage.setting, &mut stage.flat, verb, arguments, out)?
        || moving::put_answer(&mut stage.flat, verb, arguments, out)?
        || stepping::put_answer(&mut stage.bench, verb, arguments, out)?
        || showing::put_answer(&stage.flat, &stage.bench, verb, arguments, out)?;
    if is_known { Ok(()) } else { out.push_str("?") }
}

// Plays a line of the script.
fn play(alloc: Global, stage: &mut Stage, line: &str, out: &mut String) -> Result<(), AllocError> {
    if line.starts_with("# ") {
        return writeln!(out, "{line}");
    }
    let (case, _expected) = line.split_once(" = ").unwrap_or((line, ""));
    let (verb, arguments) = case.split_once(' ').unwrap_or((case, ""));
    write!(out, "{case} = ")?;
    put_answer(alloc, stage, verb, arguments, out)?;
    out.push_str("\n")
}

fn main(rt: HostRuntime) -> io::Result<()> {
    let alloc = rt.alloc();
    let mut out = String::new(alloc);
    let mut stage = Stage {
        setting: Setting::new(alloc),
        flat: None,
        bench: None,
    };
    for line in BufReader::new(alloc, rt.reader())?.lines(alloc) {
        play(alloc, &mut stage, line?.as_str(), &mut out)?;
    }
    rt.print(out)
}

//! Plays a script of cases through the public calls of the libraries.
//!
//! A line `# title` is printed as it stands. A line `VERB ARGUMENTS = EXPECTED` is a case: the program computes what the
//! call of that verb answers, and prints the case with the answer in the expected one's place. So the file `stdout` is the
//! same text as `stdin`: a case says in itself what must come, and a further case is a line and no code. An argument that
//! is none, or a verb that there is not, is answered by a question mark.
//!
//! `arguments` reads the parts of a case, `scene` is what lasts from a case to the next, and `operation_names` has the names
//! of operations. Each other module has the verbs of one library, and its `put_answer` hands a verb that is none of them on
//! to the next one's, from `words` to `proms`.
#![tactic(auto)]

mod arguments;
mod coding;
mod images;
mod lines;
mod listings;
mod memory;
mod operation_names;
mod ports;
mod proms;
mod rows;
mod scene;
mod sources;
mod tokens;
mod words;

use scene::Scene;
use std::alloc::{AllocError, Global};
use std::io;

// Plays a case, without what it expects.
fn play_case(
    alloc: Global,
    scene: &mut Scene,
    case: &str,
    out: &mut String,
) -> Result<(), AllocError> {
    let (verb, arguments) = case.split_once(' ').unwrap_or((case, ""));
    write!(out, "{case} = ")?;
    words::put_answer(alloc, scene, verb, arguments, out)
}

// Plays a line of the script.
fn play(alloc: Global, scene: &mut Scene, line: &str, out: &mut String) -> Result<(), AllocError> {
    if line.starts_with("# ") {
        out.push_str(line)
    } else {
        let (case, _expected) = line.split_once(" = ").unwrap_or((line, ""));
        play_case(alloc, scene, case, out)
    }
}

// Plays the lines of a script.
fn play_all(
    alloc: Global,
    scene: &mut Scene,
    script: &str,
    out: &mut String,
) -> Result<(), AllocError> {
    for line in script.lines() {
        play(alloc, scene, line, out)?;
        out.push_str("\n")?;
    }
    Ok(())
}

// Appends what a script comes to.
fn put_played(alloc: Global, script: &str, out: &mut String) -> Result<(), AllocError> {
    let mut scene = Scene::new(alloc)?;
    play_all(alloc, &mut scene, script, out)
}

// What a script comes to.
fn played(alloc: Global, script: &str) -> Result<String, AllocError> {
    let mut out = String::new(alloc);
    put_played(alloc, script, &mut out)?;
    Ok(out)
}

fn main(rt: HostRuntime) -> io::Result<()> {
    let script = io::read_to_string(rt.alloc(), rt.reader())?;
    let text = played(rt.alloc(), script.as_str())?;
    rt.print(text)
}

//! The verbs of a script.
//!
//! Lines that set the scene: `# TITLE` begins a case, without files and faults; `file NAME WORDS` sets a file to the bytes of
//! hexadecimal words, `image NAME BASE WORDS` to the image of the words, loaded at the base and entered there, and `text NAME TEXT`
//! to a text in which a bar ends a line, to which `more NAME TEXT` adds a line end and further text; `words NAME COUNT FACTOR` to
//! so many words, each the product of its place and the hexadecimal factor; `length NAME NUMBER BYTE` cuts a file to so many bytes,
//! or fills it up with the byte; `failing-calls NUMBERS` and `failing-writes NUMBERS` say which calls of the shelf and of the sink,
//! writes and flushes, fail, counted from 0, and `room NUMBER` how many bytes the sink takes, `shelf-room NUMBER` how many the
//! shelf.
//!
//! Command lines, whose WORDS have bars between them: `do WORDS` shows the answer and its number, the calls of the shelf, the files
//! that are changed or new, in which a star stands for rows as the one above them, how many calls failed, whether what was written
//! has not gone out, and the text that was written, a line behind each angle and the rest of one that was not ended behind a tilde.
//! `part WORDS` shows in place of the text how much was written of what ports that never fail are given, and `lines BEGINS WORDS`
//! the lines that begin so; commas stand between several. `sure WORDS` is carried out over ports that never fail. The answer and
//! such lines: `tells BEGINS WORDS`; `keep NAME BEGINS WORDS` tells them too, and sets the file of that name to the one that was
//! put; `same NAME FIRST OTHER SECOND COUNT` then says whether so many bytes of a file from one place on are those of another file
//! from another place on. The answer alone: `answer WORDS`; `reads SCRIPT` of a run of the image a for no ticks with this script,
//! of which a bar ends a line; `steps NUMBER WORDS` of a run, for at most so many ticks, of the image of hexadecimal words at
//! a0010000, and `shows NUMBER BEGINS WORDS` the lines of its report that begin so; `cut NAME FIRST LAST WORDS` and `spoil NAME
//! FIRST LAST WORDS`, where the file is cut to each of these lengths in turn, or its byte at each of these places made greater by
//! one. `asks WORDS` shows how much of each file the shelf is asked for. `status STATUS` shows the line and the number of a status,
//! and `report STATUS` the number with which the program ends with it, and what it writes to the sink of the scene before that.

use crate::fault::Fault;
use crate::scene::Scene;
use crate::seen::{perform, perform_sure, perform_watched};
use crate::shown::{put_outside, put_part, put_status, put_text};
use crate::status_text::status_of;
use crate::text::{image_of, lines_of, number_of};
use r4_ports::SureSink;
use r4k_top::{Status, report_status};
use std::alloc::{AllocError, Global};

// Shows all that a command line came to, and of the text the lines that begin so.
fn show(
    alloc: Global,
    scene: &Scene,
    begins: &str,
    line: &str,
    out: &mut String,
) -> Result<(), AllocError> {
    let seen = perform(alloc, scene, line)?;
    put_outside(alloc, scene, &seen, out)?;
    put_text(seen.sink.bytes(), begins, out)
}

// Shows the answer of a command line.
fn show_answer(
    alloc: Global,
    scene: &Scene,
    line: &str,
    out: &mut String,
) -> Result<(), AllocError> {
    let seen = perform(alloc, scene, line)?;
    put_status(alloc, &seen.status, out)
}

// Shows the answer of a command line, and of the text the lines that begin so.
fn show_told(
    alloc: Global,
    scene: &Scene,
    begins: &str,
    line: &str,
    out: &mut String,
) -> Result<(), AllocError> {
    let seen = perform(alloc, scene, line)?;
    put_status(alloc, &seen.status, out)?;
    put_text(seen.sink.bytes(), begins, out)
}

// Shows the same, and sets a file of the scene to the one that the shelf then has.
fn show_kept(
    alloc: Global,
    scene: &mut Scene,
    name: &str,
    text: &str,
    out: &mut String,
) -> Result<(), Fault> {
    let (begins, line) = cut_word(text)?;
    let seen = perform(alloc, scene, line)?;
    put_status(alloc, &seen.status, out)?;
    put_text(seen.sink.bytes(), begins, out)?;
    let Some(bytes) = seen.shelf.file(name) else {
        return Err(Fault::Unread);
    };
    writeln!(out, "| {name} has {} bytes", bytes.len())?;
    Ok(scene.set_file(alloc, name, Vec::from_slice(alloc, bytes)?)?)
}

// So many bytes of a file from a place on.
fn part_of<'a>(scene: &'a Scene, name: &str, place: &str, count: usize) -> Result<&'a [u8], Fault> {
    let place = number_of(place)?;
    let Some(end) = place.checked_add(count) else {
        return Err(Fault::Unread);
    };
    match scene.file(name) {
        Some(bytes) => bytes.get(place..end).ok_or(Fault::Unread),
        None => Err(Fault::Unread),
    }
}

// Says whether a part of a file is the same as a part of another.
fn show_same(scene: &Scene, text: &str, out: &mut String) -> Result<(), Fault> {
    let (name, text) = cut_word(text)?;
    let (first, text) = cut_word(text)?;
    let (other, text) = cut_word(text)?;
    let (second, count) = cut_word(text)?;
    let count = number_of(count)?;
    let part = part_of(scene, name, first, count)?;
    let is_same = part == part_of(scene, other, second, count)?;
    Ok(out.push_str(if is_same {
        "| the same\n"
    } else {
        "| not the same\n"
    })?)
}

// Shows the answer of a run of the image a for no ticks with this script.
fn show_read(
    alloc: Global,
    scene: &mut Scene,
    script: &str,
    out: &mut String,
) -> Result<(), Fault> {
    let script = lines_of(alloc, script)?;
    scene.set_file(alloc, "s", script)?;
    Ok(show_answer(alloc, scene, "run|pc/16|a|s|-|0", out)?)
}

// Shows what a command line comes to over ports that never fail.
fn show_sure(alloc: Global, scene: &Scene, line: &str, out: &mut String) -> Result<(), AllocError> {
    let mut sink = SureSink::new(alloc, 8192)?;
    let status = perform_sure(alloc, scene, line, &mut sink)?;
    put_status(alloc, &status, out)?;
    put_text(sink.bytes(), "", out)
}

// Shows what a command line came to, and how much it wrote of this text.
fn show_part_of(
    alloc: Global,
    scene: &Scene,
    whole: &[u8],
    line: &str,
    out: &mut String,
) -> Result<(), AllocError> {
    let seen = perform(alloc, scene, line)?;
    put_outside(alloc, scene, &seen, out)?;
    put_part(seen.sink.bytes(), whole, out)
}

// Shows what a command line came to, and how much it wrote of what ports that never fail are given.
fn show_part(alloc: Global, scene: &Scene, line: &str, out: &mut String) -> Result<(), AllocError> {
    let mut sink = SureSink::new(alloc, 8192)?;
    let _ = perform_sure(alloc, scene, line, &mut sink)?;
    show_part_of(alloc, scene, sink.bytes(), line, out)
}

// Sets a file to the image of these words, and gives the command line of its run.
fn run_of(alloc: Global, scene: &mut Scene, steps: &str, words: &str) -> Result<String, Fault> {
    let image = image_of(alloc, 0xa0010000, words)?;
    scene.set_file(alloc, "a", image)?;
    Ok(format!(in alloc; "run|pc/16|a|-|-|{steps}")?)
}

// Shows the answer of a run of the image of these words.
fn show_steps(
    alloc: Global,
    scene: &mut Scene,
    steps: &str,
    words: &str,
    out: &mut String,
) -> Result<(), Fault> {
    let line = run_of(alloc, scene, steps, words)?;
    Ok(show_answer(alloc, scene, line.as_str(), out)?)
}

// Shows the lines that begin so, of the report of a run of the image of the words behind them.
fn show_lines(
    alloc: Global,
    scene: &mut Scene,
    steps: &str,
    text: &str,
    out: &mut String,
) -> Result<(), Fault> {
    let (begins, words) = cut_word(text)?;
    let line = run_of(alloc, scene, steps, words)?;
    let seen = perform(alloc, scene, line.as_str())?;
    Ok(put_text(seen.sink.bytes(), begins, out)?)
}

// Shows how much of each file the shelf is asked for.
fn show_asked(
    alloc: Global,
    scene: &Scene,
    line: &str,
    out: &mut String,
) -> Result<(), AllocError> {
    let shelf = perform_watched(alloc, scene, line)?;
    out.push_str(shelf.asked.as_str())
}

// Shows the number with which the program ends with a status, and what it writes before that.
fn show_report(
    alloc: Global,
    scene: &Scene,
    status: &Status,
    out: &mut String,
) -> Result<(), AllocError> {
    let mut sink = scene.sink(alloc)?;
    writeln!(out, "| ends with {}", report_status(status, &mut sink))?;
    put_text(sink.bytes(), "", out)
}

// How a file is changed at a place.
#[derive(Clone, Copy)]
enum Change {
    // It ends there.
    Cut,
    // Its byte there is greater by one.
    Spoil,
}

// Changes bytes at a place.
fn change_at(bytes: &mut Vec<u8>, change: Change, place: usize) {
    match change {
        Change::Cut => bytes.truncate(place),
        Change::Spoil => {
            if let Some(byte) = bytes.get_mut(place) {
                *byte = byte.wrapping_add(1);
            }
        }
    }
}

// A file, changed at a place, and a command line over it.
#[derive(Clone, Copy)]
struct Trial<'a> {
    name: &'a str,
    change: Change,
    line: &'a str,
}

// Shows the answer of a command line, where the file is changed at a place.
fn show_changed(
    alloc: Global,
    scene: &mut Scene,
    trial: Trial<'_>,
    whole: &[u8],
    place: usize,
    out: &mut String,
) -> Result<(), Fault> {
    let mut bytes = Vec::from_slice(alloc, whole)?;
    change_at(&mut bytes, trial.change, place);
    scene.set_file(alloc, trial.name, bytes)?;
    Ok(show_answer(alloc, scene, trial.line, out)?)
}

// Shows the answers of a command line, where the file is changed at each place of a range. The file is left as it was.
fn show_range(
    alloc: Global,
    scene: &mut Scene,
    trial: Trial<'_>,
    first: usize,
    last: usize,
    out: &mut String,
) -> Result<(), Fault> {
    let whole = scene.copy_of(alloc, trial.name)?;
    for place in first..last.saturating_add(1) {
        show_changed(alloc, scene, trial, &whole, place, out)?;
    }
    Ok(scene.set_file(alloc, trial.name, whole)?)
}

// The word before the first blank, and the rest.
fn cut_word(text: &str) -> Result<(&str, &str), Fault> {
    match text.split_once(' ') {
        Some(parts) => Ok(parts),
        None => Err(Fault::Unread),
    }
}

// The same, for a range that a text says: the file's name, the first and the last place, and the command line.
fn show_changes(
    alloc: Global,
    scene: &mut Scene,
    change: Change,
    text: &str,
    out: &mut String,
) -> Result<(), Fault> {
    let (name, text) = cut_word(text)?;
    let (first, text) = cut_word(text)?;
    let (last, line) = cut_word(text)?;
    let trial = Trial { name, change, line };
    show_range(
        alloc,
        scene,
        trial,
        number_of(first)?,
        number_of(last)?,
        out,
    )
}

// The verbs whose words have a number or a text before them.
fn carry_out_with(
    alloc: Global,
    scene: &mut Scene,
    verb: &str,
    rest: &str,
    out: &mut String,
) -> Result<(), Fault> {
    let (first, second) = rest.split_once(' ').unwrap_or((rest, ""));
    match verb {
        "lines" => Ok(show(alloc, scene, first, second, out)?),
        "tells" => Ok(show_told(alloc, scene, first, second, out)?),
        "keep" => show_kept(alloc, scene, first, second, out),
        "same" => show_same(scene, rest, out),
        "steps" => show_steps(alloc, scene, first, second, out),
        "shows" => show_lines(alloc, scene, first, second, out),
        "cut" => show_changes(alloc, scene, Change::Cut, rest, out),
        "spoil" => show_changes(alloc, scene, Change::Spoil, rest, out),
        _ => scene.set(alloc, verb, rest),
    }
}

/// Carries out a line of a script: its verb, and what stands behind the first blank.
pub fn carry_out(
    alloc: Global,
    scene: &mut Scene,
    verb: &str,
    rest: &str,
    out: &mut String,
) -> Result<(), Fault> {
    match verb {
        "" => {}
        "#" => *scene = Scene::new(alloc),
        "do" => show(alloc, scene, "", rest, out)?,
        "part" => show_part(alloc, scene, rest, out)?,
        "sure" => show_sure(alloc, scene, rest, out)?,
        "answer" => show_answer(alloc, scene, rest, out)?,
        "reads" => show_read(alloc, scene, rest, out)?,
        "asks" => show_asked(alloc, scene, rest, out)?,
        "status" => put_status(alloc, &status_of(rest)?, out)?,
        "report" => show_report(alloc, scene, &status_of(rest)?, out)?,
        _ => carry_out_with(alloc, scene, verb, rest, out)?,
    }
    Ok(())
}

//! Commands, read from the words by their positions.

ghost use Rattle.std.specs.Prelude.{◌≡◌, IfSome, IsNone, Some, ◌↔◌, IsTrue, false};
ghost use Rattle.r4k_top.specs.Command as law;
ghost use Rattle.r4k_top.specs.CommandShown.{name_shown, plan_shown, command_shown};

use crate::plan::{Inquiry, Load, Plan};
use crate::telling::Telling;
use r4_shape::{Shape, read_shape};
use r4_words::read_dec;

/// The most turns of a load.
const LARGEST_COUNT: u32 = 100_000;

/// What the words ask for. Files go by their names on the shelf.
#[derive(Clone, Copy)]
pub enum Command<'a> {
    /// `run SHAPE IMAGE SCRIPT DISK STEPS`: runs an image, with a script and a disk or `-`, for at most so many ticks, and puts
    /// the disk as it is then. With `check` in the place of `run` it gives the verdict on the accesses that are made, and with
    /// `trace` it writes these too.
    Run(Plan<'a>),
    /// `judge SHAPE TRACE`: gives the verdict on the accesses that were written.
    Judge(Inquiry<'a>),
    /// `asm SOURCE OUT`: puts the image of a source.
    Assemble { source: &'a str, out: &'a str },
    /// `dis IMAGE`: writes the listing of an image.
    Disassemble { image: &'a str },
    /// `make NUMBER COUNT OUT`: puts the image of a load, runs it, and writes the summary of that run.
    Make(Load<'a>),
}

// The word at a position, or an empty text.
fn word<'a>(words: &'a Vec<String>, at: usize) -> &'a str
    ensures text { result.now ≡ law.word words.now at }
{
    match words.get(at) {
        Some(text) => text.as_str(),
        None => "",
    }
}

// Whether the words are as many as those of a run.
fn is_run(words: &Vec<String>) -> bool
    ensures { result ≡ law.is_run words.now }
{
    words.len() == 6
}

// What a run tells by its first word, None where that is no name of a run.
fn telling_of(name: &str) -> Option<Telling>
    ensures telling { result ≡ law.telling_of name.now }
{
    if name == "run" {
        Some(Telling::Report)
    } else if name == "check" {
        Some(Telling::Verdict)
    } else if name == "trace" {
        Some(Telling::Trace)
    } else {
        None
    }
}

fn is_judge(words: &Vec<String>) -> bool
    ensures { result ≡ law.is_judge words.now }
{
    words.len() == 3 && word(words, 0) == "judge"
}

fn is_asm(words: &Vec<String>) -> bool
    ensures { result ≡ law.is_asm words.now }
{
    words.len() == 3 && word(words, 0) == "asm"
}

fn is_dis(words: &Vec<String>) -> bool
    ensures { result ≡ law.is_dis words.now }
{
    words.len() == 2 && word(words, 0) == "dis"
}

fn is_make(words: &Vec<String>) -> bool
    ensures { result ≡ law.is_make words.now }
{
    words.len() == 4 && word(words, 0) == "make"
}

// The name of a script or of a disk; the word `-` stands for none.
fn given<'a>(name: &'a str) -> Option<&'a str>
    ensures name { name_shown result ≡ law.given name.now }
{
    if name == "-" { None } else { Some(name) }
}

// The shape that a word names, None where it names none, or one with a secondary cache.
fn shape_named(name: &str) -> Option<Shape>
    ensures shape { result ≡ law.shape_named name.now }
    ensures primary { IfSome result (λ shape. shape.sc ≡ false) }
{
    match read_shape(name) {
        Some(shape) if !shape.sc() => Some(shape),
        _ => None,
    }
}

// The plan of a run, None where the words name no run, or no shape, or its bound is no decimal text.
fn plan_of<'a>(words: &'a Vec<String>) -> Option<Plan<'a>>
    ensures none { IsNone result ↔ IsNone (law.plan_of words.now) }
    ensures some { IfSome result (λ plan. law.plan_of words.now ≡ Some (plan_shown plan)) }
{
    match (
        telling_of(word(words, 0)),
        shape_named(word(words, 1)),
        read_dec(word(words, 5).as_bytes()),
    ) {
        (Some(telling), Some(shape), Some(steps)) => Some(Plan {
            telling,
            shape,
            image: word(words, 2),
            script: given(word(words, 3)),
            disk: given(word(words, 4)),
            steps,
        }),
        _ => None,
    }
}

// The verdict on a trace, None where the words name no shape.
fn judge_of<'a>(words: &'a Vec<String>) -> Option<Command<'a>>
    ensures none { IsNone result ↔ IsNone (law.judge_of words.now) }
    ensures some { IfSome result (λ command. law.judge_of words.now ≡ Some (command_shown command)) }
{
    match shape_named(word(words, 1)) {
        Some(shape) => Some(Command::Judge(Inquiry {
            shape,
            trace: word(words, 2),
        })),
        None => None,
    }
}

// A run by the plan of the words, None where they give none.
fn run_by<'a>(words: &'a Vec<String>) -> Option<Command<'a>>
    ensures none { IsNone result ↔ IsNone (law.run_by (law.plan_of words.now)) }
    ensures some { IfSome result (λ command. law.run_by (law.plan_of words.now) ≡ Some (command_shown command)) }
{
    match plan_of(words) {
        Some(plan) => Some(Command::Run(plan)),
        None => None,
    }
}

// The load, None where the words give no number, or no count from 1 to 100000.
fn make_of<'a>(words: &'a Vec<String>) -> Option<Command<'a>>
    ensures none { IsNone result ↔ IsNone (law.make_of words.now) }
    ensures some { IfSome result (λ command. law.make_of words.now ≡ Some (command_shown command)) }
{
    match (
        read_dec(word(words, 1).as_bytes()),
        read_dec(word(words, 2).as_bytes()),
    ) {
        (Some(number), Some(count)) if 1 <= count && count <= LARGEST_COUNT => {
            Some(Command::Make(Load {
                number,
                count,
                out: word(words, 3),
            }))
        }
        _ => None,
    }
}

/// The command of the words, None where they are no command that is built.
#[tactic(auto, unfolding(crate::specs::Command::command_of))]
pub fn read_command<'a>(words: &'a Vec<String>) -> Option<Command<'a>>
    ensures none { IsNone result ↔ IsNone (law.command_of words.now) }
    ensures some { IfSome result (λ command. law.command_of words.now ≡ Some (command_shown command)) }
{
    if is_run(words) {
        return run_by(words);
    }
    if is_judge(words) {
        return judge_of(words);
    }
    if is_asm(words) {
        return Some(Command::Assemble {
            source: word(words, 1),
            out: word(words, 2),
        });
    }
    if is_dis(words) {
        return Some(Command::Disassemble {
            image: word(words, 1),
        });
    }
    if is_make(words) {
        return make_of(words);
    }
    None
}

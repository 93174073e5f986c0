//! Lines whose bytes holders share: the verb of line_arena. A case makes an arena, plays steps on it one after the other, and answers
//! with what those tell that ask something. A step is a word and its numbers, with colons between them; one whose condition does not
//! hold changes nothing, and is answered by a question mark.

ghost use Rattle.std.specs.Prelude.{◌≡◌, ◌⊎◌, ◌<◌, true, false, None, IfOk, IsSome, length, replicate};
ghost use Rattle.line_arena.specs.Holding.{slot_of};

use crate::arguments::{number_at, word_at};
use crate::proms;
use line_arena::Arena;
use std::alloc::{AllocError, Global};
use std::marker::Model;

/// An arena, and who holds a slot in it.
#[derive(Drop)]
struct Lines {
    line: usize,
    arena: Arena,
    holds: Vec<bool>,
}

impl Model for Lines {
    ghost use Rattle.std.specs.Prelude.{◌≡◌, map, is_some};
    ghost use Rattle.line_arena.specs.Holding.{Holding};

    ghost Value = { Holding };

    ghost view = { λ l. l.arena };

    ghost invariant = { λ l. (l.holds.items ≡ map is_some l.arena.slots) × (l.line ≡ l.arena.line) };
}

// What a step tells.
#[derive(Clone, Copy)]
enum Told {
    Byte(u8),
    Is(bool),
    Refused,
}

/// Appends the answer of a verb, a question mark where there is no such verb.
pub fn put_answer(
    alloc: Global,
    verb: &str,
    arguments: &str,
    out: &mut String,
) -> Result<(), AllocError> {
    match verb {
        "arena" => put_played(alloc, arguments, out),
        _ => proms::put_answer(alloc, verb, out),
    }
}

// Plays the steps of a case on an arena of so many bytes a line and so many holders.
fn put_played(alloc: Global, arguments: &str, out: &mut String) -> Result<(), AllocError> {
    let line = number_at(arguments, 0);
    match number_at(arguments, 1) {
        Some(holders) if 0 < holders && holders < 1000 && line == Some(16) => {
            put_steps(Lines::new(alloc, 16, holders as usize)?, arguments, out)
        }
        Some(holders) if 0 < holders && holders < 1000 && line == Some(32) => {
            put_steps(Lines::new(alloc, 32, holders as usize)?, arguments, out)
        }
        _ => out.push_str("?"),
    }
}

fn put_steps(mut lines: Lines, arguments: &str, out: &mut String) -> Result<(), AllocError> {
    let mut is_later = false;
    for step in arguments.split(' ').skip(2) {
        if let Some(told) = lines.step(step) {
            put_next(is_later, told, out)?;
            is_later = true;
        }
    }
    Ok(())
}

// Appends what a step tells, behind a blank where another one told something before.
fn put_next(is_later: bool, told: Told, out: &mut String) -> Result<(), AllocError> {
    if is_later {
        out.push_str(" ")?;
    }
    put_told(told, out)
}

fn put_told(told: Told, out: &mut String) -> Result<(), AllocError> {
    match told {
        Told::Byte(byte) => write!(out, "{byte}"),
        Told::Is(true) => out.push_str("yes"),
        Told::Is(false) => out.push_str("no"),
        Told::Refused => out.push_str("?"),
    }
}

// The number at an index of a step, and one that no holder has where there is none.
fn part(step: &str, index: usize) -> u32 {
    let word = step.split(':').nth(index).unwrap_or("");
    word.parse::<u32>().unwrap_or(u32::MAX)
}

// What is told of a change.
fn refused(is_done: bool) -> Option<Told> {
    if is_done { None } else { Some(Told::Refused) }
}

// The marks of holders without a slot.
fn marks(alloc: Global, holders: usize) -> Result<Vec<bool>, AllocError>
    ensures { IfOk result (λ marks. marks.items ≡ replicate holders false) }
{
    Ok(vec![in alloc; false; holders]?)
}

impl Lines {
    fn new(alloc: Global, line: usize, holders: usize) -> Result<Lines, AllocError>
        requires line { (line ≡ 16) ⊎ (line ≡ 32) }
        requires some { 0 < holders }
        requires most { holders < 1000 }
    {
        Ok(Lines {
            line,
            arena: Arena::new(alloc, line, holders)?,
            holds: marks(alloc, holders)?,
        })
    }

    // Whether a holder has a slot.
    fn has(&self, holder: u32) -> bool
        ensures place { result ≡ true → holder < length self.now.slots }
        ensures holds { result ≡ true → IsSome (slot_of self.now holder) }
    {
        let index = holder as usize;
        if index < self.holds.len() {
            self.holds[index]
        } else {
            false
        }
    }

    // Whether a holder has none.
    fn lacks(&self, holder: u32) -> bool
        ensures place { result ≡ true → holder < length self.now.slots }
        ensures empty { result ≡ true → slot_of self.now holder ≡ None }
    {
        let index = holder as usize;
        if index < self.holds.len() {
            !self.holds[index]
        } else {
            false
        }
    }

    // Plays a step.
    fn step(&mut self, step: &str) -> Option<Told> {
        let first = part(step, 1);
        let second = part(step, 2);
        match step.split(':').next().unwrap_or("") {
            "own" => refused(self.own(first)),
            "lend" => refused(self.lend(first, second)),
            "split" => refused(self.split(first)),
            "give" => refused(self.give_back(first)),
            "write" => refused(self.write(first, second, part(step, 3))),
            "read" => Some(self.read(first, second)),
            "owns" => Some(self.owns(first)),
            "shares" => Some(self.shares(first)),
            "same" => Some(self.is_same(first, second)),
            _ => Some(Told::Refused),
        }
    }

    fn own(&mut self, holder: u32) -> bool {
        if self.lacks(holder) {
            self.arena.own(holder);
            self.holds[holder as usize] = true;
            true
        } else {
            false
        }
    }

    fn lend(&mut self, from: u32, to: u32) -> bool {
        if self.has(from) && self.lacks(to) {
            self.arena.lend(from, to);
            self.holds[to as usize] = true;
            true
        } else {
            false
        }
    }

    fn split(&mut self, holder: u32) -> bool {
        if self.has(holder) {
            self.arena.split(holder);
            true
        } else {
            false
        }
    }

    fn give_back(&mut self, holder: u32) -> bool {
        if self.has(holder) {
            self.arena.give_back(holder);
            self.holds[holder as usize] = false;
            true
        } else {
            false
        }
    }

    // Writes the low byte of a number.
    fn write(&mut self, holder: u32, at: u32, byte: u32) -> bool {
        if self.has(holder) && (at as usize) < self.line && !self.arena.shares(holder) {
            self.arena.write(holder, at as usize, &[(byte % 256) as u8]);
            true
        } else {
            false
        }
    }

    fn read(&self, holder: u32, at: u32) -> Told {
        if self.has(holder) && (at as usize) < self.line {
            Told::Byte(self.arena.read(holder, at as usize))
        } else {
            Told::Refused
        }
    }

    fn owns(&self, holder: u32) -> Told {
        if self.has(holder) {
            Told::Is(self.arena.owns(holder))
        } else {
            Told::Refused
        }
    }

    fn shares(&self, holder: u32) -> Told {
        if self.has(holder) {
            Told::Is(self.arena.shares(holder))
        } else {
            Told::Refused
        }
    }

    // Whether two holders have one slot.
    fn is_same(&self, holder: u32, other: u32) -> Told {
        if self.has(holder) && self.has(other) {
            Told::Is(self.arena.slot(holder) == self.arena.slot(other))
        } else {
            Told::Refused
        }
    }
}

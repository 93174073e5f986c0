//! The sequence of numbers, the words of the program, and their bytes.

ghost use Rattle.std.specs.Prelude.{◌≡◌, ◌<◌, ◌≤◌, ◌+◌, ◌*◌, ◌^◌, length, IfOk};
ghost use Rattle.load_maker.specs.Program as law;

use crate::instructions::{addiu, addu, cache, lui, lw, mtc0, nop, ori, sw, tlbwi};
use r4_words::Memory;
use std::alloc::Global;

/// Where the words of the program stand, which is its entry.
pub const PROGRAM_BASE: u32 = 0xa001_0000;

// The registers, by their numbers.
const T0: u8 = 8;

const S0: u8 = 16;

const S2: u8 = 18;

const T9: u8 = 25;

const ENTRY_LO0: u8 = 2;

const ENTRY_LO1: u8 = 3;

const ENTRY_HI: u8 = 10;

// Hit Writeback Invalidate of the data cache.
const WRITE_BACK_AND_INVALIDATE: u8 = 0x15;

// The number after one.
fn next(x: u32) -> u32
    ensures { result ≡ law.next x }
{
    x.wrapping_mul(1_664_525).wrapping_add(1_013_904_223)
}

// The offset of the word that a turn changes.
fn offset_of(x: u32) -> u32
    ensures offset { result ≡ law.offset_of x }
    ensures small { result < 2 ^ 16 }
{
    4 * (x / 256 % 256) + 4096 * (x / 65536 % 2)
}

// By how much a turn raises it.
fn delta_of(x: u32) -> u32
    ensures delta { result ≡ law.delta_of x }
    ensures small { result < 2 ^ 16 }
{
    x % 256
}

// The words before the turns.
#[tactic(auto, unfolding(crate::specs::Program::first_words))]
fn first_words() -> [u32; 7]
    ensures { result ≡ law.first_words }
{
    [
        lui(S0, 0xc000),
        mtc0(S0, ENTRY_HI),
        lui(T0, 0x1),
        ori(T0, T0, 0xc01f),
        mtc0(T0, ENTRY_LO0),
        mtc0(T0, ENTRY_LO1),
        tlbwi(),
    ]
}

// The words of one turn.
#[tactic(auto, unfolding(crate::specs::Program::turn))]
fn turn(x: u32) -> [u32; 5]
    ensures { result ≡ law.turn x }
{
    let offset = offset_of(x);
    [
        lw(T0, offset, S0),
        addiu(T0, T0, delta_of(x)),
        sw(T0, offset, S0),
        cache(WRITE_BACK_AND_INVALIDATE, offset, S0),
        addu(S2, S2, T0),
    ]
}

// The words behind the turns.
#[tactic(auto, unfolding(crate::specs::Program::last_words))]
fn last_words() -> [u32; 3]
    ensures { result ≡ law.last_words }
{
    [lui(T9, 0xbf00), sw(S2, 32, T9), nop()]
}

/// The words of the program of a number, with so many turns.
pub fn make_words(alloc: Global, number: u32, count: u32) -> Result<Vec<u32>, Memory>
    ensures words { IfOk result (λ words. words.items ≡ law.program number count) }
    ensures length { IfOk result (λ words. length words.items ≡ law.program_length count) }
{
    let mut words = Vec::with_capacity(alloc, 5 * count as usize + 10)?;
    words.extend_from_slice(&first_words())?;
    let mut x = number;
    for done in 0..count {
        x = next(x);
        words.extend_from_slice(&turn(x))?;
    }
    words.extend_from_slice(&last_words())?;
    Ok(words)
}

/// The bytes of words, the high byte of each first.
pub fn word_bytes(alloc: Global, words: &[u32]) -> Result<Vec<u8>, Memory>
    requires { length words.now ≤ 2 ^ 32 }
    ensures bytes { IfOk result (λ bytes. bytes.items ≡ law.word_bytes words.now) }
    ensures length { IfOk result (λ bytes. length bytes.items ≡ 4 * length words.now) }
{
    let mut bytes = Vec::with_capacity(alloc, 4 * words.len())?;
    for word in words {
        bytes.extend_from_slice(&word.to_be_bytes())?;
    }
    Ok(bytes)
}

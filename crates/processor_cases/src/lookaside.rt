//! The memory management: the verbs of tlb_model.
//!
//! - `segment MODE ERL K0 ADDRESS` is the segment of an address, where MODE is `kernel`, `supervisor` or `user` and ERL
//!   is 0 or 1.
//! - `pair MASK HI LO0 LO1` is the pair that is stored of these registers.
//! - `translate ADDRESS ASID ACCESS; AT MASK HI LO0 LO1; ..` is what is found at an address after a write of each of these
//!   pairs at its index, where ACCESS is `read` or `write`.
//! - `probe HI; AT MASK HI LO0 LO1; ..` is the index that a search for HI finds after the same writes.

ghost use Rattle.std.specs.Prelude.{IfSome, ◌<◌};
ghost use Rattle.tlb_model.specs.Pairs.{IsPair};

use crate::arguments::word_at;
use cp0_regs::Mode;
use std::alloc::AllocError;
use tlb_model::{Found, Pair, Seg, Tlb, segment, stored_pair};

// What a call answers.
#[derive(Drop)]
enum Answered {
    Segment(Seg),
    Pair(Pair),
    Found(Found),
    Index(Option<u32>),
}

/// Appends the answer of a verb, and says whether it is one of these.
pub fn put_answer(verb: &str, arguments: &str, out: &mut String) -> Result<bool, AllocError> {
    let answered = match verb {
        "segment" => segment_at(arguments).map(Answered::Segment),
        "pair" => pair_at(arguments, 0).map(Answered::Pair),
        "translate" => found_at(arguments).map(Answered::Found),
        "probe" => index_at(arguments).map(Answered::Index),
        _ => return Ok(false),
    };
    match answered {
        Some(answered) => put_answered(&answered, out)?,
        None => out.push_str("?")?,
    }
    Ok(true)
}

fn put_answered(answered: &Answered, out: &mut String) -> Result<(), AllocError> {
    match answered {
        Answered::Segment(Seg::Mapped) => out.push_str("mapped"),
        Answered::Segment(Seg::Denied) => out.push_str("denied"),
        Answered::Segment(Seg::Direct { pa, cached }) => put_place("direct", *pa, *cached, out),
        Answered::Pair(pair) => {
            write!(out, "{:08x} {:08x}", pair.mask, pair.hi)?;
            write!(out, " {:08x} {:08x}", pair.lo0, pair.lo1)
        }
        Answered::Found(Found::Page { pa, cached }) => put_place("page", *pa, *cached, out),
        Answered::Found(Found::Refill) => out.push_str("refill"),
        Answered::Found(Found::Invalid) => out.push_str("invalid"),
        Answered::Found(Found::Modified) => out.push_str("modified"),
        Answered::Index(Some(at)) => write!(out, "{at}"),
        Answered::Index(None) => out.push_str("none"),
    }
}

fn put_place(kind: &str, pa: u64, cached: bool, out: &mut String) -> Result<(), AllocError> {
    let way = if cached { "cached" } else { "uncached" };
    write!(out, "{kind} {pa:09x} {way}")
}

// The word at an index, a hexadecimal number.
fn word_number_at(arguments: &str, index: usize) -> Option<u32> {
    u32::from_str_radix(word_at(arguments, index), 16).ok()
}

fn segment_at(arguments: &str) -> Option<Seg> {
    let mode = match word_at(arguments, 0) {
        "kernel" => Mode::Kernel,
        "supervisor" => Mode::Supervisor,
        "user" => Mode::User,
        _ => return None,
    };
    let error_level = word_at(arguments, 1) == "1";
    let k0 = word_at(arguments, 2).parse::<u8>().ok()?;
    let address = word_number_at(arguments, 3)?;
    Some(segment(address, mode, error_level, k0))
}

// The pair that is stored of the registers from an index on, if they can hold these words.
fn pair_at(arguments: &str, index: usize) -> Option<Pair>
    requires { index < 2 }
    ensures { IfSome result (λ pair. IsPair pair) }
{
    let mask = word_number_at(arguments, index)?;
    let hi = word_number_at(arguments, index + 1)?;
    let lo0 = word_number_at(arguments, index + 2)?;
    let lo1 = word_number_at(arguments, index + 3)?;
    let is_mask = matches!(
        mask,
        0 | 0x6000 | 0x1_e000 | 0x7_e000 | 0x1f_e000 | 0x7f_e000 | 0x1ff_e000
    );
    let fits = hi & 0xffff_e0ff == hi && lo0 & 0x3fff_ffff == lo0 && lo1 & 0x3fff_ffff == lo1;
    if is_mask && fits {
        Some(stored_pair(mask, hi, lo0, lo1))
    } else {
        None
    }
}

// The pairs after a case's writes, which follow its first part.
fn pairs_of(arguments: &str) -> Option<Tlb> {
    let mut tlb = Tlb::new();
    for writing in arguments.split(';').skip(1) {
        let words = writing.trim();
        let at = word_at(words, 0).parse::<u32>().ok()?;
        let pair = pair_at(words, 1)?;
        if at >= 48 {
            return None;
        }
        tlb.write(at, pair);
    }
    Some(tlb)
}

// The part of a case before its writes.
fn asked(arguments: &str) -> &str {
    arguments.split(';').next().unwrap_or("")
}

fn found_at(arguments: &str) -> Option<Found> {
    let address = word_number_at(asked(arguments), 0)?;
    let asid = u8::from_str_radix(word_at(asked(arguments), 1), 16).ok()?;
    let is_write = match word_at(asked(arguments), 2) {
        "read" => false,
        "write" => true,
        _ => return None,
    };
    Some(pairs_of(arguments)?.translate(address, asid, is_write))
}

fn index_at(arguments: &str) -> Option<Option<u32>> {
    let hi = word_number_at(asked(arguments), 0)?;
    Some(pairs_of(arguments)?.probe(hi))
}

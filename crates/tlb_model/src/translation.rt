//! What the first pair that matches an address has for it.

ghost use Rattle.std.specs.Prelude.{◌≡◌, ◌<◌, ◌≤◌, ◌%◌, ◌^◌, length, IfSome};
ghost use Rattle.tlb_model.specs.Pairs.{IsPair, ArePairs};
ghost use Rattle.tlb_model.specs.Translation as law;
ghost use Rattle.tlb_model.specs.Translation.{IsFound};

use crate::pairs::Pair;

/// What is found at a mapped address.
#[derive(Clone, Copy)]
pub enum Found {
    /// A physical address, through the caches or past them.
    Page { pa: u64, cached: bool },
    /// No pair matches.
    Refill,
    /// The page of the first pair that matches is not valid.
    Invalid,
    /// It is valid and not dirty, and the access is a write.
    Modified,
}

// Whether a pair is global, or of an address space.
#[inline(never)]
fn is_in_space(pair: &Pair, asid: u8) -> bool
    ensures space { result ≡ law.is_in_space asid pair.now }
{
    let global = pair.lo0 % 2 == 1 && pair.lo1 % 2 == 1;
    let owned = pair.hi % 256 == u32::from(asid);
    global || owned
}

// Whether a pair matches an address of an address space. Few pairs cover an address, so the space is asked for apart.
#[inline(always)]
fn is_match(pair: &Pair, va: u32, asid: u8) -> bool
    requires { IsPair pair.now }
    ensures matched { result ≡ law.is_match va asid pair.now }
{
    (va ^ pair.hi) & (0xffff_e000 - pair.mask) == 0 && is_in_space(pair, asid)
}

// The place of a number in a page of the pair.
#[tactic(auto, using(crate::proofs::PageSizes::offset_is))]
fn offset_in(pair: Pair, number: u64) -> u64
    requires pair { IsPair pair }
    ensures offset { result ≡ number % law.page_size pair }
    ensures within { result ≤ number }
{
    number & ((u64::from(pair.mask) + 0x2000) / 2 - 1)
}

// What the pair has for an access.
#[tactic(auto, using(crate::proofs::PageSizes::start_is, crate::proofs::PageSizes::odd_is))]
fn found_in(pair: Pair, va: u32, write: bool) -> Found
    requires pair { IsPair pair }
    ensures page { result ≡ law.found_in pair va write (law.page_of pair va) }
    ensures place { IsFound va result }
{
    // The odd page follows the even one.
    let odd = va & (pair.mask + 0x1fff) >= (pair.mask + 0x2000) / 2;
    let lo = if odd { pair.lo1 } else { pair.lo0 };
    let valid = lo / 2 % 2 == 1;
    let dirty = lo / 4 % 2 == 1;
    if !valid {
        Found::Invalid
    } else if write && !dirty {
        Found::Modified
    } else {
        let frame = u64::from(lo / 64 % 0x100_0000) * 4096;
        Found::Page {
            pa: frame - offset_in(pair, frame) + offset_in(pair, u64::from(va)),
            cached: lo / 8 % 8 != 2,
        }
    }
}

/// The index of the first pair that matches.
pub fn first_index(pairs: &[Pair], va: u32, asid: u8) -> Option<u32>
    requires pairs { ArePairs pairs.now }
    requires few { length pairs.now ≤ 48 }
    ensures first { result ≡ law.first_index pairs.now va asid }
    ensures index { IfSome result (λ at. at < 48) }
{
    for at in 0..pairs.len() {
        if is_match(&pairs[at], va, asid) {
            return Some(at as u32);
        }
    }
    None
}

/// What the first pair that matches has for an access.
pub fn translate(pairs: &[Pair], va: u32, asid: u8, write: bool) -> Found
    requires pairs { ArePairs pairs.now }
    ensures found { result ≡ law.found_by va write (law.first_match pairs.now va asid) }
    ensures place { IsFound va result }
{
    for pair in pairs {
        if is_match(pair, va, asid) {
            return found_in(*pair, va, write);
        }
    }
    Found::Refill
}

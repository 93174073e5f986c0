//! The pairs.

ghost use Rattle.std.specs.Prelude.{◌≡◌, ◌<◌, slice_set, IfSome};
ghost use Rattle.std.specs.List.{position_from};
ghost use Rattle.cp0_regs.specs.Bits.{HasOnly};
ghost use Rattle.cp0_regs.specs.PageMasks.{IsMask};
ghost use Rattle.tlb_model.specs.Pairs as law;
ghost use Rattle.tlb_model.specs.Pairs.{IsPair, hi_bits, lo_bits};
ghost use Rattle.tlb_model.specs.Translation.{IsFound, first_index, translated};

use crate::translation::{Found, first_index, translate};
use std::marker::Model;

/// A pair of pages: PageMask, EntryHi, and EntryLo0 and EntryLo1 of the even page and the odd one.
#[derive(Clone, Copy)]
pub struct Pair {
    pub mask: u32,
    pub hi: u32,
    pub lo0: u32,
    pub lo1: u32,
}

const ZERO: Pair = Pair {
    mask: 0,
    hi: 0,
    lo0: 0,
    lo1: 0,
};

/// A pair that is all zero.
#[tactic(auto, using(crate::proofs::Storable::zero_is_pair))]
pub fn zero_pair() -> Pair
    ensures pair { result ≡ law.zero_pair }
    ensures storable { IsPair result }
{
    ZERO
}

/// The pair that is stored of these registers: the page number without the bits under the mask, and one G for both pages.
#[tactic(auto, using(crate::proofs::Storable::stored_is_pair))]
pub fn stored_pair(mask: u32, hi: u32, lo0: u32, lo1: u32) -> Pair
    requires mask { IsMask mask }
    requires hi { HasOnly hi hi_bits }
    requires lo0 { HasOnly lo0 lo_bits }
    requires lo1 { HasOnly lo1 lo_bits }
    ensures pair { result ≡ law.stored_pair mask hi lo0 lo1 }
    ensures storable { IsPair result }
{
    let global = lo0 % 2 * (lo1 % 2);
    Pair {
        mask,
        hi: hi & !mask,
        lo0: lo0 / 2 * 2 + global,
        lo1: lo1 / 2 * 2 + global,
    }
}

/// The 48 pairs of the TLB.
#[derive(Drop)]
pub struct Tlb {
    pairs: [Pair; 48],
}

impl Model for Tlb {
    ghost use Rattle.std.specs.Prelude.{List};
    ghost use Rattle.tlb_model.specs.declared.pairs.Pair.{Pair};
    ghost use Rattle.tlb_model.specs.Pairs.{ArePairs};

    ghost Value = { List Pair };

    ghost view = { λ tlb. tlb.pairs };

    ghost invariant = { λ tlb. ArePairs tlb.pairs };
}

impl Tlb {
    /// Zero pairs.
    #[tactic(auto, unfolding(crate::specs::Pairs::zero_pairs))]
    pub fn new() -> Tlb
        ensures zero { result ≡ law.zero_pairs }
    {
        Tlb { pairs: [ZERO; 48] }
    }

    /// The pair at an index.
    pub fn read(&self, at: u32) -> Pair
        requires index { at < 48 }
        ensures pair { result ≡ law.pair_at self.now at }
        ensures storable { IsPair result }
    {
        self.pairs[at as usize]
    }

    /// Replaces the pair at an index, and no other.
    pub fn write(&mut self, at: u32, pair: Pair)
        requires index { at < 48 }
        requires storable { IsPair pair }
        ensures written { self.new ≡ slice_set self.old at pair }
    {
        self.pairs[at as usize] = pair;
    }

    /// The index of the first pair that matches EntryHi: its page number in its address space.
    pub fn probe(&self, hi: u32) -> Option<u32>
        ensures first { result ≡ first_index self.now hi (law.asid_of hi) }
        ensures index { IfSome result (λ at. at < 48) }
    {
        first_index(&self.pairs, hi, (hi % 256) as u8)
    }

    /// What is found at a mapped address of an address space, for a read or a write.
    #[tactic(auto, unfolding(crate::specs::Translation::translated))]
    pub fn translate(&self, va: u32, asid: u8, write: bool) -> Found
        ensures found { result ≡ translated self.now va asid write }
        ensures place { IsFound va result }
    {
        translate(&self.pairs, va, asid, write)
    }
}

//! The slots of the holders.

ghost use Rattle.std.specs.Prelude.{◌≡◌, ◌⊎◌, ◌+◌, ◌<◌, ◌≤◌, ◌^◌, ℕ, true, false, Some, None, IsSome, IfOk};
ghost use Rattle.std.specs.Prelude.{length, replicate, take, slice_index};
ghost use Rattle.std.specs.Option.{option_map};
ghost use Rattle.line_arena.specs.Holding as law;
ghost use Rattle.line_arena.specs.Holding.{IsFree, IsHolding, bytes_of, is_owner, is_shared, left, slot_of, with_slot};

use crate::slots::{lowest, put_bytes};
use slab::Slab;
use std::alloc::{AllocError, Global};
use std::marker::Model;

/// The bytes of lines of 16 or 32 bytes, each in a slot that its holders share. Holders are numbers.
#[derive(Drop)]
pub struct Arena {
    line: usize,
    // The bytes of each slot in use, by the slot's number.
    store: Slab<[u8; 32]>,
    // The slot of each holder.
    held: Vec<Option<usize>>,
    // How many holders each slot has.
    counts: Vec<u32>,
    // Whether each holder owns its slot.
    owns: Vec<bool>,
}

impl Model for Arena {
    ghost use Rattle.line_arena.specs.Holding.{Holding};
    ghost use Rattle.line_arena.specs.Parts.{IsKept, holding, parts};

    ghost Value = { Holding };

    ghost view = { λ a. holding (parts a.line a.store a.held.items a.counts.items a.owns.items) };

    ghost invariant = { λ a. IsKept (parts a.line a.store a.held.items a.counts.items a.owns.items) };
}

fn no_slots(alloc: Global, holders: usize) -> Result<Vec<Option<usize>>, AllocError>
    ensures { IfOk result (λ held. held.items ≡ replicate holders None) }
{
    Ok(vec![in alloc; None; holders]?)
}

fn no_holders(alloc: Global, slots: usize) -> Result<Vec<u32>, AllocError>
    ensures { IfOk result (λ counts. counts.items ≡ replicate slots 0) }
{
    Ok(vec![in alloc; 0; slots]?)
}

fn no_owners(alloc: Global, holders: usize) -> Result<Vec<bool>, AllocError>
    ensures { IfOk result (λ owns. owns.items ≡ replicate holders false) }
{
    Ok(vec![in alloc; false; holders]?)
}

impl Arena {
    /// An arena in which nobody holds a slot, with room for a slot of each holder.
    pub fn new(alloc: Global, line: usize, holders: usize) -> Result<Arena, AllocError>
        requires line { (line ≡ 16) ⊎ (line ≡ 32) }
        requires some { 0 < holders }
        requires most { holders < 2 ^ 32 }
        ensures { IfOk result (λ arena. arena ≡ law.nobody line holders) }
    {
        let store = Slab::with_capacity(alloc, holders)?;
        let counts = no_holders(alloc, store.capacity())?;
        Ok(Arena {
            line,
            store,
            held: no_slots(alloc, holders)?,
            counts,
            owns: no_owners(alloc, holders)?,
        })
    }

    /// The number of a holder's slot.
    #[inline]
    pub fn slot(&self, holder: u32) -> usize
        requires place { holder < length self.now.slots }
        requires holds { IsSome (slot_of self.now holder) }
        ensures slot { slot_of self.now holder ≡ Some result }
    {
        match self.held[holder as usize] {
            Some(slot) => slot,
            None => unreachable!(),
        }
    }

    /// Whether a holder is the owner of its slot.
    pub fn owns(&self, holder: u32) -> bool
        requires place { holder < length self.now.slots }
        requires holds { IsSome (slot_of self.now holder) }
        ensures owner { result ≡ is_owner self.now holder }
        ensures whole { IsHolding self.now }
    {
        self.owns[holder as usize]
    }

    /// Whether another holder has a holder's slot.
    #[inline]
    pub fn shares(&self, holder: u32) -> bool
        requires place { holder < length self.now.slots }
        requires holds { IsSome (slot_of self.now holder) }
        ensures shared { result ≡ is_shared self.now holder }
        ensures owner { result ≡ false → is_owner self.now holder ≡ true }
    {
        self.counts[self.slot(holder)] != 1
    }

    /// A byte of a holder.
    #[inline]
    pub fn read(&self, holder: u32, at: usize) -> u8
        requires place { holder < length self.now.slots }
        requires holds { IsSome (slot_of self.now holder) }
        requires inside { at < self.now.line }
        ensures byte { option_map (λ bytes. slice_index bytes at) (bytes_of self.now holder) ≡ Some result }
    {
        match self.store.get(self.slot(holder)) {
            Some(bytes) => bytes[at],
            None => unreachable!(),
        }
    }

    // The bytes of a holder's slot, of which the line's come first.
    fn bytes(&self, holder: u32) -> [u8; 32]
        requires place { holder < length self.now.slots }
        requires holds { IsSome (slot_of self.now holder) }
        ensures bytes { bytes_of self.now holder ≡ Some (take self.now.line result) }
        ensures long { length result ≡ 32 }
    {
        match self.store.get(self.slot(holder)) {
            Some(bytes) => *bytes,
            None => unreachable!(),
        }
    }

    /// Replaces bytes of a holder from a place on, whose slot no other holder has. The bytes of all others stay.
    pub fn write(&mut self, holder: u32, at: usize, bytes: &[u8])
        requires place { holder < length self.old.slots }
        requires holds { IsSome (slot_of self.old holder) }
        requires alone { is_shared self.old holder ≡ false }
        requires fits { at + length bytes.now ≤ self.old.line }
        ensures written { self.new ≡ law.written holder at bytes.now self.old }
    {
        let slot = self.slot(holder);
        match self.store.get_mut(slot) {
            Some(all) => put_bytes(all, at, bytes),
            None => unreachable!(),
        }
    }

    // A holder without a slot gets one of its own, with these bytes.
    fn take(&mut self, holder: u32, bytes: [u8; 32])
        requires place { holder < length self.old.slots }
        requires empty { slot_of self.old holder ≡ None }
        requires long { length bytes ≡ 32 }
        ensures short { self.old.line ≤ 32 }
        ensures owner { is_owner self.new holder ≡ true }
        ensures taken { (slot : ℕ) × IsFree self.old slot × (self.new ≡ with_slot holder slot (Some (take self.old.line bytes)) self.old) }
    {
        let slot = self.store.insert_reserved(bytes);
        self.held[holder as usize] = Some(slot);
        self.counts[slot] = 1;
        self.owns[holder as usize] = true;
    }

    /// A holder without a slot gets one of its own, with zero bytes.
    pub fn own(&mut self, holder: u32)
        requires place { holder < length self.old.slots }
        requires empty { slot_of self.old holder ≡ None }
        ensures owned { (slot : ℕ) × IsFree self.old slot × (self.new ≡ with_slot holder slot (Some (replicate self.old.line 0)) self.old) }
    {
        self.take(holder, [0; 32]);
    }

    /// A holder without a slot gets the one of another, whose owner stays.
    pub fn lend(&mut self, from: u32, to: u32)
        requires from { from < length self.old.slots }
        requires to { to < length self.old.slots }
        requires holds { IsSome (slot_of self.old from) }
        requires empty { slot_of self.old to ≡ None }
        ensures lent { self.new ≡ law.lent from to self.old }
    {
        let slot = self.slot(from);
        self.held[to as usize] = Some(slot);
        self.counts[slot] += 1;
    }

    /// A holder gives its slot back. Where it owned one that is shared, the lowest of the others owns it.
    pub fn give_back(&mut self, holder: u32)
        requires place { holder < length self.old.slots }
        requires holds { IsSome (slot_of self.old holder) }
        ensures left { self.new ≡ law.left holder self.old }
    {
        let slot = self.slot(holder);
        let others = self.counts[slot] - 1;
        let owned = self.owns[holder as usize];
        self.counts[slot] = others;
        self.held[holder as usize] = None;
        self.owns[holder as usize] = false;
        if others == 0 {
            self.store.remove(slot);
        } else if owned {
            if let Some(heir) = lowest(slot, &self.held) {
                self.owns[heir] = true;
            }
        }
    }

    /// A holder gets a slot of its own with the bytes that it reads, where another holder has its slot: the others keep theirs, and
    /// where the holder owned it, the lowest of them owns it.
    pub fn split(&mut self, holder: u32)
        requires place { holder < length self.old.slots }
        requires holds { IsSome (slot_of self.old holder) }
        ensures own { is_shared self.old holder ≡ false → self.new ≡ self.old }
        ensures split { is_shared self.old holder ≡ true → (slot : ℕ) × IsFree self.old slot
            × (self.new ≡ with_slot holder slot (bytes_of self.old holder) (left holder self.old)) }
        ensures alone { is_shared self.new holder ≡ false }
        ensures owner { is_owner self.new holder ≡ true }
        ensures bytes { self.new.bytes ≡ self.old.bytes }
    {
        if self.shares(holder) {
            let bytes = self.bytes(holder);
            self.give_back(holder);
            self.take(holder, bytes);
        }
    }
}

//! The registers as one value.

ghost use Rattle.std.specs.Prelude.{◌≡◌, ◌<◌, ◌≤◌, ◌+◌, ◌-◌, ◌^◌, slice_index, slice_set, None};
ghost use Rattle.cp0_regs.specs.Bits.{HasOnly};
ghost use Rattle.cp0_regs.specs.Counting as counting;
ghost use Rattle.cp0_regs.specs.Fixed.{HasFixed, KeepsFixed};
ghost use Rattle.cp0_regs.specs.Moves as moves;
ghost use Rattle.cp0_regs.specs.PageMasks.{IsMask};
ghost use Rattle.cp0_regs.specs.Registers.{possible_bits, register_of, reset_cp0};
ghost use Rattle.cp0_regs.specs.Fields.{device_lines};
ghost use Rattle.cp0_regs.specs.State.{IsCp0, IsField, IsFree, value_of, with_value};

use crate::fields::{DEVICE_LINES, Field, TIMER_LINE};
use crate::page_masks::longest_run;
use crate::registers::{
    COMPARE, CONFIG, COUNT, PAGE_MASK, PRID, RANDOM, STATUS, WIRED, written_bits,
};
use std::marker::Model;

/// The last pair of the TLB, from which Random falls.
const LAST_PAIR: u32 = 47;

/// The 32 registers by number, those that are not listed among them.
#[derive(Drop)]
pub struct Cp0 {
    words: [u32; 32],
}

impl Model for Cp0 {
    ghost use Rattle.std.specs.Prelude.{List, ℕ};

    ghost Value = { List ℕ };

    ghost use Rattle.cp0_regs.specs.State.{IsCp0};

    ghost view = { λ cp0. cp0.words };

    ghost invariant = { λ cp0. IsCp0 cp0.words };
}

// What a register takes of a value that is written to it.
fn taken_by(number: u8, value: u32) -> u32
    ensures taken { result ≡ moves.taken number value }
    ensures page_mask { number ≡ 5 → IsMask result }
{
    if number == PAGE_MASK {
        longest_run(value)
    } else {
        value
    }
}

impl Cp0 {
    /// The registers at reset, with what the shape of the caches gives for Config.
    #[tactic(auto, using(crate::proofs::Fixed::reset_has), unfolding(crate::specs::Registers::reset_cp0))]
    pub fn new(config: u32) -> Cp0
        ensures reset { result ≡ reset_cp0 config }
        ensures fixed { HasFixed config result }
    {
        let mut words = [0; 32];
        words[RANDOM as usize] = LAST_PAIR;
        words[STATUS as usize] = 0x0040_0004;
        words[PRID as usize] = 0x400;
        words[CONFIG as usize] = config;
        Cp0 { words }
    }

    /// What the registers always are.
    #[inline(always)]
    pub fn keeps(&self)
        ensures always { IsCp0 self.now }
    {
        let _ = &self.words;
    }

    /// A register.
    #[tactic(auto, using(crate::proofs::Masking::none_only), unfolding(crate::specs::Registers::possible_bits))]
    pub fn read(&self, number: u8) -> u32
        requires number { number < 32 }
        ensures value { result ≡ slice_index self.now number }
        ensures possible { HasOnly result (possible_bits number) }
        ensures unlisted { register_of number ≡ None → result ≡ 0 }
        ensures random { number ≡ 1 → result ≤ 47 }
        ensures page_mask { number ≡ 5 → IsMask result }
    {
        self.words[number as usize]
    }

    /// Makes a register a value that it can have.
    pub fn set(&mut self, number: u8, value: u32)
        requires number { number < 32 }
        requires possible { HasOnly value (possible_bits number) }
        requires random { number ≡ 1 → value ≤ 47 }
        requires page_mask { number ≡ 5 → IsMask value }
        ensures set { self.new ≡ slice_set self.old number value }
    {
        self.words[number as usize] = value;
    }

    /// The number in a field.
    pub fn field(&self, field: Field) -> u32
        requires field { IsField field }
        ensures value { result ≡ value_of self.now field }
        ensures small { result < 2 ^ (field.high - field.low + 1) }
    {
        let word = u64::from(self.words[field.register as usize]);
        ((word >> field.low) % (1u64 << (field.high - field.low + 1))) as u32
    }

    /// Makes a field a number.
    #[tactic(auto, using(crate::proofs::Masking::merged_only, crate::proofs::Masking::and_of_shifted, crate::proofs::ReadBack::read_back))]
    pub fn set_field(&mut self, field: Field, value: u32)
        requires field { IsFree field }
        ensures set { self.new ≡ with_value self.old field value }
        ensures holds { value < 2 ^ (field.high - field.low + 1) → value_of self.new field ≡ value }
    {
        let bits = field.bits();
        let word = self.words[field.register as usize];
        self.set(field.register, word & !bits | (value << field.low) & bits);
    }

    /// What MTC0 does.
    #[tactic(auto, using(crate::proofs::Writes::software_write), unfolding(crate::specs::Moves::written))]
    pub fn write(&mut self, number: u8, value: u32)
        requires number { number < 32 }
        ensures written { self.new ≡ moves.written self.old number value }
        ensures unlisted { register_of number ≡ None → self.new ≡ self.old }
        ensures fixed { KeepsFixed self.old self.new }
    {
        self.keeps();
        let bits = written_bits(number);
        let word = self.read(number);
        let taken = taken_by(number, value);
        self.set(number, word & !bits | taken & bits);
        match number {
            WIRED => self.set(RANDOM, LAST_PAIR),
            COMPARE => self.set_field(TIMER_LINE, 0),
            _ => {}
        }
    }

    /// Gives the devices' lines, IP2 to IP6, these levels.
    #[tactic(auto, using(crate::proofs::Possible::device_lines_is_free, crate::proofs::Fixed::lines_keep))]
    pub fn lines(&mut self, levels: u8)
        requires levels { levels < 32 }
        ensures lines { self.new ≡ counting.with_lines self.old levels }
        ensures shown { value_of self.new device_lines ≡ levels }
        ensures fixed { KeepsFixed self.old self.new }
    {
        self.set_field(DEVICE_LINES, u32::from(levels));
    }

    // Count grows by one.
    #[tactic(auto, using(crate::proofs::Possible::count_possible))]
    fn grow_count(&mut self)
        ensures counted { self.new ≡ counting.with_count self.old }
    {
        let count = self.read(COUNT).wrapping_add(1);
        self.set(COUNT, count);
    }

    // The timer asks for an interrupt where Count is Compare.
    #[tactic(auto, using(crate::proofs::Possible::timer_line_is_free))]
    fn compare_timer(&mut self)
        ensures compared { self.new ≡ counting.with_timer self.old }
    {
        let count = self.read(COUNT);
        let compare = self.read(COMPARE);
        if count == compare {
            self.set_field(TIMER_LINE, 1);
        }
    }

    // Random falls, or is at the last pair again.
    #[tactic(auto, using(crate::proofs::Possible::pair_possible))]
    fn lower_random(&mut self, wired: bool)
        ensures lowered { self.new ≡ counting.with_random self.old wired }
    {
        let random = self.read(RANDOM);
        let lowest = self.read(WIRED);
        let next = if wired || random == lowest || random == 0 {
            LAST_PAIR
        } else {
            random - 1
        };
        self.set(RANDOM, next);
    }

    /// The end of a tick, which wrote Wired or did not: Count, the timer, and Random.
    #[tactic(auto, using(crate::proofs::Fixed::counted_keeps), unfolding(crate::specs::Counting::counted))]
    pub fn count(&mut self, wired: bool)
        ensures counted { self.new ≡ counting.counted self.old wired }
        ensures lines { value_of self.new device_lines ≡ value_of self.old device_lines }
        ensures fixed { KeepsFixed self.old self.new }
    {
        self.grow_count();
        self.compare_timer();
        self.lower_random(wired);
    }
}

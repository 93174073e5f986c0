//! The masks of pages, which PageMask takes.

ghost use Rattle.std.specs.Prelude.{◌≡◌};
ghost use Rattle.std.specs.List.{find};
ghost use Rattle.cp0_regs.specs.PageMasks as law;
ghost use Rattle.cp0_regs.specs.PageMasks.{IsMask};

const PAGE_MASKS: [u32; 7] = [
    0x01ff_e000,
    0x007f_e000,
    0x001f_e000,
    0x0007_e000,
    0x0001_e000,
    0x0000_6000,
    0,
];

// The first of the masks, from the largest page on, all of whose bits a word has.
fn first_mask(word: u32) -> Option<u32>
    ensures first { result ≡ find (law.has_all_of word) law.page_masks }
{
    PAGE_MASKS.iter().copied().find(|mask| word & mask == *mask)
}

/// The longest run of pairs of ones from bit 13 up.
#[tactic(auto, using(crate::proofs::Runs::longest_run_is, crate::proofs::Runs::first_is_mask))]
pub fn longest_run(word: u32) -> u32
    ensures run { result ≡ law.longest_run word }
    ensures mask { IsMask result }
{
    first_mask(word).unwrap_or(0)
}

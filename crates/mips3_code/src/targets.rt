//! Where branches and jumps go, and the numbers by which they reach a target.

ghost use Rattle.std.specs.Prelude.{◌≡◌, ◌<◌, ◌^◌, ◌↔◌, ℕ, IsNone, IfSome};
ghost use Rattle.mips3_code.specs.Targets as law;
ghost use Rattle.mips3_code.specs.Targets.{IsBranchDistance, IsJumpNumber};

use r4_words::sext16;

/// Where a branch at an address goes: so many words from its delay slot, by 16 bits in two's complement.
#[tactic(auto, unfolding(crate::specs::Targets::branch_target))]
pub fn branch_target(at: u32, distance: u32) -> u32
    requires { distance < 2 ^ 16 }
    ensures { result ≡ law.branch_target at distance }
{
    let words = sext16(distance as u16);
    at.wrapping_add(4).wrapping_add(words.wrapping_mul(4))
}

/// Where a jump at an address goes: the word of this number within the 256 MB of its delay slot.
#[tactic(auto, unfolding(crate::specs::Targets::jump_target))]
pub fn jump_target(at: u32, number: u32) -> u32
    requires { number < 2 ^ 26 }
    ensures { result ≡ law.jump_target at number }
{
    at.wrapping_add(4) / 0x1000_0000 * 0x1000_0000 + 4 * number
}

/// The number of 16 bits by which a branch at an address reaches a target. There is at most one, and None where there is
/// none.
pub fn branch_distance(at: u32, target: u32) -> Option<u32>
    ensures distance { (distance : ℕ) → (result ≡ Some distance) ↔ IsBranchDistance at target distance }
    ensures too_far { IsNone result ↔ ((distance : ℕ) → ¬ IsBranchDistance at target distance) }
    ensures small { IfSome result (λ distance. distance < 2 ^ 16) }
{
    let apart = target.wrapping_sub(at.wrapping_add(4));
    let distance = apart / 4 % 0x1_0000;
    if branch_target(at, distance) == target {
        Some(distance)
    } else {
        None
    }
}

/// The number of 26 bits by which a jump at an address reaches a target. There is at most one, and None where there is
/// none.
pub fn jump_number(at: u32, target: u32) -> Option<u32>
    ensures number { (number : ℕ) → (result ≡ Some number) ↔ IsJumpNumber at target number }
    ensures too_far { IsNone result ↔ ((number : ℕ) → ¬ IsJumpNumber at target number) }
    ensures small { IfSome result (λ number. number < 2 ^ 26) }
{
    let number = target / 4 % 0x400_0000;
    if jump_target(at, number) == target {
        Some(number)
    } else {
        None
    }
}

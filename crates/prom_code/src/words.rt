//! The words of the PROM: the boot, the way on for a TLB refill, and the handler of other exceptions.

ghost use Rattle.std.specs.Prelude.{◌≡◌, ◌+◌, ◌≤◌, length};
ghost use Rattle.flat_ram.specs.Bytes.{put_bytes};
ghost use Rattle.prom_code.specs.HandlerOf.{HasHandler};
ghost use Rattle.prom_code.specs.PromWords as law;

use flat_ram::Prom;

// At 000.
const BOOT: [u32; 6] = [
    0x3c1b0040, // 000 lui k1,0x40
    0x409b6000, // 004 mtc0 k1,Status
    0x3c1abf00, // 008 lui k0,0xbf00
    0x8f5a0024, // 00c lw k0,36(k0)
    0x03400008, // 010 jr k0
    0x00000000, // 014 nop
];

// At 200.
const REFILL: [u32; 3] = [
    0x3c1a8000, // 200 lui k0,0x8000
    0x03400008, // 204 jr k0
    0x00000000, // 208 nop
];

// At 380.
const HANDLER: [u32; 14] = [
    0x401a6800, // 380 mfc0 k0,Cause
    0x335a007c, // 384 andi k0,k0,0x7c
    0x3b5b007c, // 388 xori k1,k0,0x7c
    0x13600007, // 38c beq k1,zero,3ac
    0x3b5a0038, // 390 xori k0,k0,0x38
    0x13400005, // 394 beq k0,zero,3ac
    0x00000000, // 398 nop
    0x3c1a8000, // 39c lui k0,0x8000
    0x375a0180, // 3a0 ori k0,k0,0x180
    0x03400008, // 3a4 jr k0
    0x00000000, // 3a8 nop
    0x401a4000, // 3ac mfc0 k0,BadVAddr
    0xbf570000, // 3b0 cache 0x17,0(k0)
    0x42000018, // 3b4 eret
];

// Replaces the words from an index on.
fn put_words(all: &mut [u32], at: usize, words: &[u32])
    requires { at + length words.now ≤ length all.old }
    ensures put { all.new ≡ put_bytes all.old at words.now }
{
    all[at..at + words.len()].copy_from_slice(words);
}

/// The PROM, whose words are zero where none is listed.
#[tactic(auto, unfolding(crate::specs::PromWords::boot_words), using(crate::proofs::HandlerWords::boot_has_handler))]
pub fn prom() -> Prom
    ensures words { result ≡ law.boot_prom }
    ensures handler { HasHandler result }
{
    let mut words = [0; 1024];
    put_words(&mut words, 0, &BOOT);
    put_words(&mut words, 0x200 / 4, &REFILL);
    put_words(&mut words, 0x380 / 4, &HANDLER);
    Prom { words }
}

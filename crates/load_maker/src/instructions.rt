//! The words of the instructions of the program.

ghost use Rattle.std.specs.Prelude.{◌≡◌, ◌<◌, ◌^◌};
ghost use Rattle.load_maker.specs.Instructions as law;

use mips3_code::encode;
use mips3_table::Inst;

// The rows of the table, by their numbers.
const ADDIU_ROW: u8 = 11;

const ORI_ROW: u8 = 17;

const LUI_ROW: u8 = 19;

const LW_ROW: u8 = 25;

const SW_ROW: u8 = 36;

const CACHE_ROW: u8 = 43;

const SLL_ROW: u8 = 54;

const ADDU_ROW: u8 = 87;

const MTC0_ROW: u8 = 122;

const TLBWI_ROW: u8 = 125;

// An instruction of a row that has no fields yet.
fn bare(row: u8) -> Inst
    ensures { result ≡ law.bare row }
{
    Inst {
        row,
        rs: 0,
        rt: 0,
        rd: 0,
        sa: 0,
        imm: 0,
    }
}

/// `lui rt,number`
#[tactic(auto, unfolding(crate::specs::Instructions::row_number, crate::specs::Instructions::word_of, mips3_table::specs::Rows::row_at, mips3_table::specs::Rows::rows))]
pub fn lui(rt: u8, number: u32) -> u32
    requires register { rt < 32 }
    requires number { number < 2 ^ 16 }
    ensures { result ≡ law.lui rt number }
{
    encode(&Inst {
        rt,
        imm: number,
        ..bare(LUI_ROW)
    })
}

/// `ori rt,rs,number`
#[tactic(auto, unfolding(crate::specs::Instructions::row_number, crate::specs::Instructions::word_of, mips3_table::specs::Rows::row_at, mips3_table::specs::Rows::rows))]
pub fn ori(rt: u8, rs: u8, number: u32) -> u32
    requires target { rt < 32 }
    requires source { rs < 32 }
    requires number { number < 2 ^ 16 }
    ensures { result ≡ law.ori rt rs number }
{
    encode(&Inst {
        rs,
        rt,
        imm: number,
        ..bare(ORI_ROW)
    })
}

/// `addiu rt,rs,number`
#[tactic(auto, unfolding(crate::specs::Instructions::row_number, crate::specs::Instructions::word_of, mips3_table::specs::Rows::row_at, mips3_table::specs::Rows::rows))]
pub fn addiu(rt: u8, rs: u8, number: u32) -> u32
    requires target { rt < 32 }
    requires source { rs < 32 }
    requires number { number < 2 ^ 16 }
    ensures { result ≡ law.addiu rt rs number }
{
    encode(&Inst {
        rs,
        rt,
        imm: number,
        ..bare(ADDIU_ROW)
    })
}

/// `lw rt,offset(base)`
#[tactic(auto, unfolding(crate::specs::Instructions::row_number, crate::specs::Instructions::word_of, mips3_table::specs::Rows::row_at, mips3_table::specs::Rows::rows))]
pub fn lw(rt: u8, offset: u32, base: u8) -> u32
    requires register { rt < 32 }
    requires offset { offset < 2 ^ 16 }
    requires base { base < 32 }
    ensures { result ≡ law.lw rt offset base }
{
    encode(&Inst {
        rs: base,
        rt,
        imm: offset,
        ..bare(LW_ROW)
    })
}

/// `sw rt,offset(base)`
#[tactic(auto, unfolding(crate::specs::Instructions::row_number, crate::specs::Instructions::word_of, mips3_table::specs::Rows::row_at, mips3_table::specs::Rows::rows))]
pub fn sw(rt: u8, offset: u32, base: u8) -> u32
    requires register { rt < 32 }
    requires offset { offset < 2 ^ 16 }
    requires base { base < 32 }
    ensures { result ≡ law.sw rt offset base }
{
    encode(&Inst {
        rs: base,
        rt,
        imm: offset,
        ..bare(SW_ROW)
    })
}

/// `cache code,offset(base)`
#[tactic(auto, unfolding(crate::specs::Instructions::row_number, crate::specs::Instructions::word_of, mips3_table::specs::Rows::row_at, mips3_table::specs::Rows::rows))]
pub fn cache(code: u8, offset: u32, base: u8) -> u32
    requires code { code < 32 }
    requires offset { offset < 2 ^ 16 }
    requires base { base < 32 }
    ensures { result ≡ law.cache code offset base }
{
    encode(&Inst {
        rs: base,
        rt: code,
        imm: offset,
        ..bare(CACHE_ROW)
    })
}

/// `addu rd,rs,rt`
#[tactic(auto, unfolding(crate::specs::Instructions::row_number, crate::specs::Instructions::word_of, mips3_table::specs::Rows::row_at, mips3_table::specs::Rows::rows))]
pub fn addu(rd: u8, rs: u8, rt: u8) -> u32
    requires target { rd < 32 }
    requires first { rs < 32 }
    requires second { rt < 32 }
    ensures { result ≡ law.addu rd rs rt }
{
    encode(&Inst {
        rs,
        rt,
        rd,
        ..bare(ADDU_ROW)
    })
}

/// `mtc0 rt,register`
#[tactic(auto, unfolding(crate::specs::Instructions::row_number, crate::specs::Instructions::word_of, mips3_table::specs::Rows::row_at, mips3_table::specs::Rows::rows))]
pub fn mtc0(rt: u8, register: u8) -> u32
    requires source { rt < 32 }
    requires register { register < 32 }
    ensures { result ≡ law.mtc0 rt register }
{
    encode(&Inst {
        rt,
        rd: register,
        ..bare(MTC0_ROW)
    })
}

/// `tlbwi`
#[tactic(auto, unfolding(crate::specs::Instructions::row_number, crate::specs::Instructions::word_of, mips3_table::specs::Rows::row_at, mips3_table::specs::Rows::rows))]
pub fn tlbwi() -> u32
    ensures { result ≡ law.tlbwi }
{
    encode(&bare(TLBWI_ROW))
}

/// `nop`, which is `sll zero,zero,0`
#[tactic(auto, unfolding(crate::specs::Instructions::row_number, crate::specs::Instructions::word_of, mips3_table::specs::Rows::row_at, mips3_table::specs::Rows::rows))]
pub fn nop() -> u32
    ensures { result ≡ law.nop }
{
    encode(&bare(SLL_ROW))
}

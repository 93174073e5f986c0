//! The names of registers: printed by number, and read.

ghost use Rattle.std.specs.Prelude.{◌≡◌, ◌<◌, ◌≤◌, length};
ghost use Rattle.mips_text.specs.Names as names;

/// The name of a general register.
#[tactic(auto, unfolding(crate::specs::Names::register_name, crate::specs::Names::register_names))]
pub fn register_name(register: u8) -> &'static str
    requires { register < 32 }
    ensures value { result.now ≡ names.register_name register }
    ensures len { length result.now ≤ 4 }
{
    match register {
        0 => "zero",
        1 => "at",
        2 => "v0",
        3 => "v1",
        4 => "a0",
        5 => "a1",
        6 => "a2",
        7 => "a3",
        8 => "t0",
        9 => "t1",
        10 => "t2",
        11 => "t3",
        12 => "t4",
        13 => "t5",
        14 => "t6",
        15 => "t7",
        16 => "s0",
        17 => "s1",
        18 => "s2",
        19 => "s3",
        20 => "s4",
        21 => "s5",
        22 => "s6",
        23 => "s7",
        24 => "t8",
        25 => "t9",
        26 => "k0",
        27 => "k1",
        28 => "gp",
        29 => "sp",
        30 => "s8",
        _ => "ra",
    }
}

/// The name of a register of coprocessor 0. One that has none in the manual has `c` and its number.
#[tactic(auto, unfolding(crate::specs::Names::cp0_name, crate::specs::Names::cp0_names))]
pub fn cp0_name(register: u8) -> &'static str
    requires { register < 32 }
    ensures value { result.now ≡ names.cp0_name register }
    ensures len { length result.now ≤ 8 }
{
    match register {
        0 => "Index",
        1 => "Random",
        2 => "EntryLo0",
        3 => "EntryLo1",
        4 => "Context",
        5 => "PageMask",
        6 => "Wired",
        7 => "c7",
        8 => "BadVAddr",
        9 => "Count",
        10 => "EntryHi",
        11 => "Compare",
        12 => "Status",
        13 => "Cause",
        14 => "EPC",
        15 => "PRId",
        16 => "Config",
        17 => "LLAddr",
        18 => "c18",
        19 => "c19",
        20 => "c20",
        21 => "c21",
        22 => "c22",
        23 => "c23",
        24 => "c24",
        25 => "c25",
        26 => "c26",
        27 => "c27",
        28 => "TagLo",
        29 => "TagHi",
        30 => "ErrorEPC",
        _ => "c31",
    }
}

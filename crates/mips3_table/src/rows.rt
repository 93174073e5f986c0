//! The rows in code: a list for each class.
//!
//! Each list is a macro that hands its rows to another macro, `consumer`: the arguments of the call in parentheses, the
//! bits that the class reads, and each row as its number, its name, what stands in those bits, the width of its
//! operation in bits, the form of its operands, and its operation. A crate above writes a consumer of its own, beside the
//! function whose body it fills; one that uses the operation imports the variants that it names.

/// The rows told by the opcode.
#[macro_export]
macro_rules! opcode_rows {
    ($consumer:ident, $($argument:expr),*) => {
        $consumer! {
            ($($argument),*), 0xfc000000,
            0   "j"       0x08000000 32 Target Jump(Unlinked),
            1   "jal"     0x0c000000 32 Target Jump(IntoRegister31),
            2   "beq"     0x10000000 32 CompareBranch Branch(Equal, AlwaysExecuted, Unlinked),
            3   "bne"     0x14000000 32 CompareBranch Branch(NotEqual, AlwaysExecuted, Unlinked),
            4   "beql"    0x50000000 32 CompareBranch Branch(Equal, NullifiedUnlessTaken, Unlinked),
            5   "bnel"    0x54000000 32 CompareBranch Branch(NotEqual, NullifiedUnlessTaken, Unlinked),
            6   "blez"    0x18000000 32 ZeroBranch Branch(LessOrEqual, AlwaysExecuted, Unlinked),
            7   "bgtz"    0x1c000000 32 ZeroBranch Branch(Greater, AlwaysExecuted, Unlinked),
            8   "blezl"   0x58000000 32 ZeroBranch Branch(LessOrEqual, NullifiedUnlessTaken, Unlinked),
            9   "bgtzl"   0x5c000000 32 ZeroBranch Branch(Greater, NullifiedUnlessTaken, Unlinked),
            10  "addi"    0x20000000 32 SignedImmediate Add(Word, Traps),
            11  "addiu"   0x24000000 32 SignedImmediate Add(Word, Wraps),
            12  "slti"    0x28000000 32 SignedImmediate SetWhere(Less),
            13  "sltiu"   0x2c000000 32 SignedImmediate SetWhere(LessUnsigned),
            14  "daddi"   0x60000000 64 SignedImmediate Add(Double, Traps),
            15  "daddiu"  0x64000000 64 SignedImmediate Add(Double, Wraps),
            16  "andi"    0x30000000 32 UnsignedImmediate And,
            17  "ori"     0x34000000 32 UnsignedImmediate Or,
            18  "xori"    0x38000000 32 UnsignedImmediate ExclusiveOr,
            19  "lui"     0x3c000000 32 UpperImmediate LoadUpper,
            20  "ldl"     0x68000000 64 Memory LoadLeft(Double),
            21  "ldr"     0x6c000000 64 Memory LoadRight(Double),
            22  "lb"      0x80000000 32 Memory Load(Byte, Signed),
            23  "lh"      0x84000000 32 Memory Load(Half, Signed),
            24  "lwl"     0x88000000 32 Memory LoadLeft(Word),
            25  "lw"      0x8c000000 32 Memory Load(Wide(Word), Signed),
            26  "lbu"     0x90000000 32 Memory Load(Byte, Unsigned),
            27  "lhu"     0x94000000 32 Memory Load(Half, Unsigned),
            28  "lwr"     0x98000000 32 Memory LoadRight(Word),
            29  "lwu"     0x9c000000 64 Memory Load(Wide(Word), Unsigned),
            30  "ll"      0xc0000000 32 Memory LoadLinked(Word),
            31  "lld"     0xd0000000 64 Memory LoadLinked(Double),
            32  "ld"      0xdc000000 64 Memory Load(Wide(Double), Signed),
            33  "sb"      0xa0000000 32 Memory Store(Byte),
            34  "sh"      0xa4000000 32 Memory Store(Half),
            35  "swl"     0xa8000000 32 Memory StoreLeft(Word),
            36  "sw"      0xac000000 32 Memory Store(Wide(Word)),
            37  "sdl"     0xb0000000 64 Memory StoreLeft(Double),
            38  "sdr"     0xb4000000 64 Memory StoreRight(Double),
            39  "swr"     0xb8000000 32 Memory StoreRight(Word),
            40  "sc"      0xe0000000 32 Memory StoreConditional(Word),
            41  "scd"     0xf0000000 64 Memory StoreConditional(Double),
            42  "sd"      0xfc000000 64 Memory Store(Wide(Double)),
            43  "cache"   0xbc000000 32 CacheOperation OperateCache,
            44  "cop1"    0x44000000 32 CoprocessorNumber UseCoprocessor(One),
            45  "cop2"    0x48000000 32 CoprocessorNumber UseCoprocessor(Two),
            46  "lwc1"    0xc4000000 32 CoprocessorMemory UseCoprocessor(One),
            47  "lwc2"    0xc8000000 32 CoprocessorMemory UseCoprocessor(Two),
            48  "ldc1"    0xd4000000 32 CoprocessorMemory UseCoprocessor(One),
            49  "ldc2"    0xd8000000 32 CoprocessorMemory UseCoprocessor(Two),
            50  "swc1"    0xe4000000 32 CoprocessorMemory UseCoprocessor(One),
            51  "swc2"    0xe8000000 32 CoprocessorMemory UseCoprocessor(Two),
            52  "sdc1"    0xf4000000 32 CoprocessorMemory UseCoprocessor(One),
            53  "sdc2"    0xf8000000 32 CoprocessorMemory UseCoprocessor(Two),
        }
    };
}

/// The rows of SPECIAL, opcode 0, told by the function.
#[macro_export]
macro_rules! special_rows {
    ($consumer:ident, $($argument:expr),*) => {
        $consumer! {
            ($($argument),*), 0xfc00003f,
            54  "sll"     0x00000000 32 Shift ShiftLeft(Word, InField),
            55  "srl"     0x00000002 32 Shift ShiftRightLogical(Word, InField),
            56  "sra"     0x00000003 32 Shift ShiftRightArithmetic(Word, InField),
            57  "dsll"    0x00000038 64 Shift ShiftLeft(Double, InField),
            58  "dsrl"    0x0000003a 64 Shift ShiftRightLogical(Double, InField),
            59  "dsra"    0x0000003b 64 Shift ShiftRightArithmetic(Double, InField),
            60  "dsll32"  0x0000003c 64 Shift ShiftLeft(Double, InFieldPlus32),
            61  "dsrl32"  0x0000003e 64 Shift ShiftRightLogical(Double, InFieldPlus32),
            62  "dsra32"  0x0000003f 64 Shift ShiftRightArithmetic(Double, InFieldPlus32),
            63  "sllv"    0x00000004 32 ShiftByRegister ShiftLeft(Word, InRegister),
            64  "srlv"    0x00000006 32 ShiftByRegister ShiftRightLogical(Word, InRegister),
            65  "srav"    0x00000007 32 ShiftByRegister ShiftRightArithmetic(Word, InRegister),
            66  "dsllv"   0x00000014 64 ShiftByRegister ShiftLeft(Double, InRegister),
            67  "dsrlv"   0x00000016 64 ShiftByRegister ShiftRightLogical(Double, InRegister),
            68  "dsrav"   0x00000017 64 ShiftByRegister ShiftRightArithmetic(Double, InRegister),
            69  "jr"      0x00000008 32 Source Jump(Unlinked),
            70  "jalr"    0x00000009 32 JumpAndLinkRegister Jump(IntoDestination),
            71  "syscall" 0x0000000c 32 Code SystemCall,
            72  "break"   0x0000000d 32 Code Breakpoint,
            73  "sync"    0x0000000f 32 NoOperands Synchronize,
            74  "mfhi"    0x00000010 32 Destination MoveFromHi,
            75  "mflo"    0x00000012 32 Destination MoveFromLo,
            76  "mthi"    0x00000011 32 Source MoveToHi,
            77  "mtlo"    0x00000013 32 Source MoveToLo,
            78  "mult"    0x00000018 32 TwoSources Multiply(Word, Signed),
            79  "multu"   0x00000019 32 TwoSources Multiply(Word, Unsigned),
            80  "div"     0x0000001a 32 TwoSources Divide(Word, Signed),
            81  "divu"    0x0000001b 32 TwoSources Divide(Word, Unsigned),
            82  "dmult"   0x0000001c 64 TwoSources Multiply(Double, Signed),
            83  "dmultu"  0x0000001d 64 TwoSources Multiply(Double, Unsigned),
            84  "ddiv"    0x0000001e 64 TwoSources Divide(Double, Signed),
            85  "ddivu"   0x0000001f 64 TwoSources Divide(Double, Unsigned),
            86  "add"     0x00000020 32 ThreeRegisters Add(Word, Traps),
            87  "addu"    0x00000021 32 ThreeRegisters Add(Word, Wraps),
            88  "sub"     0x00000022 32 ThreeRegisters Subtract(Word, Traps),
            89  "subu"    0x00000023 32 ThreeRegisters Subtract(Word, Wraps),
            90  "and"     0x00000024 32 ThreeRegisters And,
            91  "or"      0x00000025 32 ThreeRegisters Or,
            92  "xor"     0x00000026 32 ThreeRegisters ExclusiveOr,
            93  "nor"     0x00000027 32 ThreeRegisters NotOr,
            94  "slt"     0x0000002a 32 ThreeRegisters SetWhere(Less),
            95  "sltu"    0x0000002b 32 ThreeRegisters SetWhere(LessUnsigned),
            96  "dadd"    0x0000002c 64 ThreeRegisters Add(Double, Traps),
            97  "daddu"   0x0000002d 64 ThreeRegisters Add(Double, Wraps),
            98  "dsub"    0x0000002e 64 ThreeRegisters Subtract(Double, Traps),
            99  "dsubu"   0x0000002f 64 ThreeRegisters Subtract(Double, Wraps),
            100 "tge"     0x00000030 32 TrapRegisters TrapWhere(GreaterOrEqual),
            101 "tgeu"    0x00000031 32 TrapRegisters TrapWhere(GreaterOrEqualUnsigned),
            102 "tlt"     0x00000032 32 TrapRegisters TrapWhere(Less),
            103 "tltu"    0x00000033 32 TrapRegisters TrapWhere(LessUnsigned),
            104 "teq"     0x00000034 32 TrapRegisters TrapWhere(Equal),
            105 "tne"     0x00000036 32 TrapRegisters TrapWhere(NotEqual),
        }
    };
}

/// The rows of REGIMM, opcode 1, told by the number in rt's place.
#[macro_export]
macro_rules! regimm_rows {
    ($consumer:ident, $($argument:expr),*) => {
        $consumer! {
            ($($argument),*), 0xfc1f0000,
            106 "bltz"    0x04000000 32 ZeroBranch Branch(Less, AlwaysExecuted, Unlinked),
            107 "bgez"    0x04010000 32 ZeroBranch Branch(GreaterOrEqual, AlwaysExecuted, Unlinked),
            108 "bltzl"   0x04020000 32 ZeroBranch Branch(Less, NullifiedUnlessTaken, Unlinked),
            109 "bgezl"   0x04030000 32 ZeroBranch Branch(GreaterOrEqual, NullifiedUnlessTaken, Unlinked),
            110 "bltzal"  0x04100000 32 ZeroBranch Branch(Less, AlwaysExecuted, IntoRegister31),
            111 "bgezal"  0x04110000 32 ZeroBranch Branch(GreaterOrEqual, AlwaysExecuted, IntoRegister31),
            112 "bltzall" 0x04120000 32 ZeroBranch Branch(Less, NullifiedUnlessTaken, IntoRegister31),
            113 "bgezall" 0x04130000 32 ZeroBranch Branch(GreaterOrEqual, NullifiedUnlessTaken, IntoRegister31),
            114 "tgei"    0x04080000 32 TrapImmediate TrapWhere(GreaterOrEqual),
            115 "tgeiu"   0x04090000 32 TrapImmediate TrapWhere(GreaterOrEqualUnsigned),
            116 "tlti"    0x040a0000 32 TrapImmediate TrapWhere(Less),
            117 "tltiu"   0x040b0000 32 TrapImmediate TrapWhere(LessUnsigned),
            118 "teqi"    0x040c0000 32 TrapImmediate TrapWhere(Equal),
            119 "tnei"    0x040e0000 32 TrapImmediate TrapWhere(NotEqual),
        }
    };
}

/// The moves of COP0, opcode 16, told by the number in rs's place.
#[macro_export]
macro_rules! cop0_move_rows {
    ($consumer:ident, $($argument:expr),*) => {
        $consumer! {
            ($($argument),*), 0xffe00000,
            120 "mfc0"    0x40000000 32 Cp0Move MoveFromCp0(Word),
            121 "dmfc0"   0x40200000 64 Cp0Move MoveFromCp0(Double),
            122 "mtc0"    0x40800000 32 Cp0Move MoveToCp0(Word),
            123 "dmtc0"   0x40a00000 64 Cp0Move MoveToCp0(Double),
        }
    };
}

/// The operations of COP0, opcode 16 with bit 25 set, told by the function.
#[macro_export]
macro_rules! cop0_function_rows {
    ($consumer:ident, $($argument:expr),*) => {
        $consumer! {
            ($($argument),*), 0xfe00003f,
            124 "tlbr"    0x42000001 32 NoOperands ReadTlb,
            125 "tlbwi"   0x42000002 32 NoOperands WriteIndexedTlb,
            126 "tlbwr"   0x42000006 32 NoOperands WriteRandomTlb,
            127 "tlbp"    0x42000008 32 NoOperands ProbeTlb,
            128 "eret"    0x42000018 32 NoOperands ReturnFromException,
        }
    };
}

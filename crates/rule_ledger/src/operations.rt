//! The operations of the CACHE instruction, as far as the rules tell them apart.

ghost use Rattle.std.specs.Prelude.{◌≡◌};
ghost use Rattle.rule_ledger.specs.Operations.{is_valid, on_data, on_instructions, operation_of, ruled, stored};

use cache_codes::{Cache, CacheCode, Verb};

/// An operation on the lines at an index of a primary cache.
#[derive(Clone, Copy)]
pub enum IndexOperation {
    InvalidateI,
    WritebackInvalidateD,
    /// A tag of an invalid state is stored, which throws the line away.
    StoreTagD,
}

/// An operation on the line of an address.
#[derive(Clone, Copy)]
pub enum HitOperation {
    HitInvalidateI,
    HitInvalidateD,
    FillI,
    HitWritebackInvalidateD,
    HitWritebackD,
}

/// What an operation is to the rules.
#[derive(Clone, Copy)]
pub enum Operation {
    Index(IndexOperation),
    Hit(HitOperation),
    /// It makes a line, or writes memory from the instruction cache.
    Forge,
    /// It shows a tag.
    Peek,
    /// It does nothing on a machine without a secondary cache.
    Nothing,
}

// Whether TagLo has a valid state.
fn is_valid(tag_lo: u64) -> bool
    ensures { result ≡ is_valid tag_lo }
{
    tag_lo / 64 % 4 != 0
}

// Index Store Tag: what it is where the state is an invalid one.
fn stored(tag_lo: u64, invalid: IndexOperation) -> Operation
    ensures { result ≡ stored tag_lo invalid }
{
    if is_valid(tag_lo) {
        Operation::Forge
    } else {
        Operation::Index(invalid)
    }
}

// A verb said to the instruction cache, where the sixth one is Fill.
fn on_instructions(verb: Verb, tag_lo: u64) -> Operation
    ensures { result ≡ on_instructions verb tag_lo }
{
    match verb {
        Verb::IndexWritebackInvalidate => Operation::Index(IndexOperation::InvalidateI),
        Verb::IndexLoadTag => Operation::Peek,
        Verb::IndexStoreTag => stored(tag_lo, IndexOperation::InvalidateI),
        Verb::HitInvalidate => Operation::Hit(HitOperation::HitInvalidateI),
        Verb::HitWritebackInvalidate => Operation::Hit(HitOperation::FillI),
        Verb::HitWriteback => Operation::Forge,
        Verb::CreateDirtyExclusive | Verb::HitSetVirtual => Operation::Nothing,
    }
}

// A verb said to the data cache.
fn on_data(verb: Verb, tag_lo: u64) -> Operation
    ensures { result ≡ on_data verb tag_lo }
{
    match verb {
        Verb::IndexWritebackInvalidate => Operation::Index(IndexOperation::WritebackInvalidateD),
        Verb::IndexLoadTag => Operation::Peek,
        Verb::IndexStoreTag => stored(tag_lo, IndexOperation::StoreTagD),
        Verb::CreateDirtyExclusive => Operation::Forge,
        Verb::HitInvalidate => Operation::Hit(HitOperation::HitInvalidateD),
        Verb::HitWritebackInvalidate => Operation::Hit(HitOperation::HitWritebackInvalidateD),
        Verb::HitWriteback => Operation::Hit(HitOperation::HitWritebackD),
        Verb::HitSetVirtual => Operation::Nothing,
    }
}

impl Operation {
    // What a verb said to a cache is to the rules.
    fn of(code: CacheCode, tag_lo: u64) -> Operation
        ensures { result ≡ ruled code.cache code.verb tag_lo }
    {
        match code.cache {
            Cache::PrimaryInstruction => on_instructions(code.verb, tag_lo),
            Cache::PrimaryData => on_data(code.verb, tag_lo),
            Cache::SecondaryInstruction | Cache::SecondaryData => Operation::Nothing,
        }
    }

    /// What the operation of a code is to the rules.
    pub fn from_code(code: u8, tag_lo: u64) -> Operation
        ensures { result ≡ operation_of code tag_lo }
    {
        match CacheCode::from_number(code) {
            Some(code) => Operation::of(code, tag_lo),
            None => Operation::Nothing,
        }
    }
}

//! A code as a pair, and its number.

ghost use Rattle.std.specs.Prelude.{◌≡◌, ◌<◌, IfSome, Some};
ghost use Rattle.cache_codes.specs.Codes.{cache_number, cache_of, code_of, number_of, verb_number, verb_of};

/// What is done. By the manual's names for the data caches: the instruction caches have no dirty lines, so there the first
/// verb is Index Invalidate; and the sixth one is Fill on the primary instruction cache.
#[derive(Clone, Copy)]
pub enum Verb {
    IndexWritebackInvalidate,
    IndexLoadTag,
    IndexStoreTag,
    CreateDirtyExclusive,
    HitInvalidate,
    HitWritebackInvalidate,
    HitWriteback,
    HitSetVirtual,
}

/// The cache to which it is done.
#[derive(Clone, Copy)]
pub enum Cache {
    PrimaryInstruction,
    PrimaryData,
    SecondaryInstruction,
    SecondaryData,
}

/// A code of the CACHE instruction.
#[derive(Clone, Copy)]
pub struct CacheCode {
    pub verb: Verb,
    pub cache: Cache,
}

// The verb of a number.
fn verb_of(number: u8) -> Verb
    requires bits { number < 8 }
    ensures verb { result ≡ verb_of number }
    ensures undone { verb_number result ≡ number }
{
    match number {
        0 => Verb::IndexWritebackInvalidate,
        1 => Verb::IndexLoadTag,
        2 => Verb::IndexStoreTag,
        3 => Verb::CreateDirtyExclusive,
        4 => Verb::HitInvalidate,
        5 => Verb::HitWritebackInvalidate,
        6 => Verb::HitWriteback,
        _ => Verb::HitSetVirtual,
    }
}

// The cache of a number.
fn cache_of(number: u8) -> Cache
    requires bits { number < 4 }
    ensures cache { result ≡ cache_of number }
    ensures undone { cache_number result ≡ number }
{
    match number {
        0 => Cache::PrimaryInstruction,
        1 => Cache::PrimaryData,
        2 => Cache::SecondaryInstruction,
        _ => Cache::SecondaryData,
    }
}

impl Verb {
    /// The number of the verb.
    pub fn number(self) -> u8
        ensures number { result ≡ verb_number self }
        ensures bits { result < 8 }
        ensures undone { verb_of result ≡ self }
    {
        match self {
            Verb::IndexWritebackInvalidate => 0,
            Verb::IndexLoadTag => 1,
            Verb::IndexStoreTag => 2,
            Verb::CreateDirtyExclusive => 3,
            Verb::HitInvalidate => 4,
            Verb::HitWritebackInvalidate => 5,
            Verb::HitWriteback => 6,
            Verb::HitSetVirtual => 7,
        }
    }
}

impl Cache {
    /// The number of the cache.
    pub fn number(self) -> u8
        ensures number { result ≡ cache_number self }
        ensures bits { result < 4 }
        ensures undone { cache_of result ≡ self }
    {
        match self {
            Cache::PrimaryInstruction => 0,
            Cache::PrimaryData => 1,
            Cache::SecondaryInstruction => 2,
            Cache::SecondaryData => 3,
        }
    }
}

impl CacheCode {
    /// The code of a number, None where it has more than five bits.
    #[tactic(auto, unfolding(crate::specs::Codes::code_of))]
    pub fn from_number(number: u8) -> Option<CacheCode>
        ensures code { result ≡ code_of number }
        ensures undone { IfSome result (λ code. number_of code ≡ number) }
    {
        if number >= 32 {
            return None;
        }
        Some(CacheCode {
            verb: verb_of(number / 4),
            cache: cache_of(number % 4),
        })
    }

    /// The number of the code.
    pub fn number(self) -> u8
        ensures number { result ≡ number_of self }
        ensures bits { result < 32 }
        ensures undone { code_of result ≡ Some self }
    {
        self.verb.number() * 4 + self.cache.number()
    }
}

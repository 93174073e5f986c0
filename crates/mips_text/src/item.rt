//! What a line of a source says.

ghost use Rattle.std.specs.Prelude.{◌≡◌, ◌≤◌, ◌↔◌, length, IsTrue};

use crate::texts::{push_text, text_size};
use arrayvec::ArrayVec;
use mips3_table::Inst;
use r4_words::Memory;
use std::marker::Model;

/// The name of a label: its bytes in the source.
#[derive(Drop)]
pub struct Name<'a> {
    text: &'a [u8],
}

impl<'a> Model for Name<'a> {
    ghost use Rattle.std.specs.Prelude.{List, ℕ};

    ghost Value = { List ℕ };

    ghost view = { λ name. name.text.now };
}

impl<'a> Name<'a> {
    /// The name of these bytes.
    pub fn new(text: &'a [u8]) -> Self
        ensures { result ≡ text.now }
    {
        Name { text }
    }

    /// Its bytes.
    pub fn text(&self) -> &'a [u8]
        ensures { result.now ≡ self.now }
    {
        self.text
    }
}

/// Where a branch or a jump goes.
#[derive(Drop)]
pub enum Target<'a> {
    /// An address.
    Address(u32),
    /// The address of a label.
    Label(Name<'a>),
}

/// At most 64 numbers of 32 bits.
#[derive(Drop)]
pub struct Words {
    list: ArrayVec<u32, 64>,
}

impl Model for Words {
    ghost use Rattle.std.specs.Prelude.{List, ℕ};

    ghost Value = { List ℕ };

    ghost view = { λ words. words.list.items };
}

impl Words {
    /// The words of a list.
    pub fn new(list: ArrayVec<u32, 64>) -> Self
        ensures { result ≡ list.items }
    {
        Words { list }
    }

    /// The list.
    pub fn list(&self) -> &[u32]
        ensures { result.now ≡ self.now }
    {
        &self.list
    }

    /// How many they are.
    pub fn len(&self) -> usize
        ensures len { result ≡ length self.now }
        ensures few { result ≤ 64 }
    {
        self.list.len()
    }

    /// Whether they are none.
    pub fn is_empty(&self) -> bool
        ensures { IsTrue result ↔ (length self.now ≡ 0) }
    {
        self.list.is_empty()
    }
}

/// Where bytes stand: as numbers, or as a text in quotes with its escapes.
#[derive(Drop)]
enum Source<'a> {
    Numbers(ArrayVec<u8, 64>),
    Text(&'a [u8]),
}

/// At most 64 bytes, or those of a text.
#[derive(Drop)]
pub struct Bytes<'a> {
    source: Source<'a>,
}

impl<'a> Model for Bytes<'a> {
    ghost use Rattle.std.specs.Prelude.{List, ℕ};

    ghost Value = { List ℕ };

    ghost use Rattle.mips_text.specs.BytesOf.{IsReadable, bytes_in};

    ghost view = { λ bytes. bytes_in bytes.source };

    ghost invariant = { λ bytes. IsReadable bytes.source };
}

impl<'a> Bytes<'a> {
    ghost use Rattle.std.specs.Prelude.{◌≡◌, ◌++◌, ◌↔◌, length, unwrap_or, [], IsTrue, OnErr, OnOk};
    ghost use Rattle.mips_text.specs.Values.{bytes_of_text};

    /// These bytes.
    pub fn of_numbers(list: ArrayVec<u8, 64>) -> Self
        ensures { result ≡ list.items }
    {
        Bytes {
            source: Source::Numbers(list),
        }
    }

    /// The bytes of a text in quotes; None where a backslash stands before a byte that it does not escape.
    pub fn of_text(text: &'a [u8]) -> Option<Self>
        ensures { result ≡ bytes_of_text text.now }
    {
        text_size(text)?;
        Some(Bytes {
            source: Source::Text(text),
        })
    }

    /// How many they are.
    pub fn len(&self) -> usize
        ensures { result ≡ length self.now }
    {
        match &self.source {
            Source::Numbers(list) => list.len(),
            Source::Text(text) => match text_size(text) {
                Some(size) => size,
                None => unreachable!(),
            },
        }
    }

    /// Whether they are none.
    pub fn is_empty(&self) -> bool
        ensures { IsTrue result ↔ (length self.now ≡ 0) }
    {
        self.len() == 0
    }

    /// Appends them. Where memory is wanting, the bytes stay as they were.
    pub fn push_to(&self, out: &mut Vec<u8>) -> Result<(), Memory>
        ensures ok { OnOk result (out.new.items ≡ out.old.items ++ self.now) }
        ensures err { OnErr result (out.new.items ≡ out.old.items) }
    {
        match &self.source {
            Source::Numbers(list) => out.extend_from_slice(list),
            Source::Text(text) => push_text(text, out),
        }
    }
}

/// What a statement puts into the image.
#[derive(Drop)]
pub enum Item<'a> {
    /// An instruction.
    Plain(Inst),
    /// A branch, whose number comes from its target.
    BranchTo(Inst, Target<'a>),
    /// A jump, whose number comes from its target.
    JumpTo(Inst, Target<'a>),
    /// A register loaded with a number of 32 bits.
    LoadNumber(u8, u32),
    /// A register loaded with the address of a label.
    LoadLabel(u8, Name<'a>),
    /// Numbers of 32 bits.
    Words(Words),
    /// Bytes.
    Bytes(Bytes<'a>),
    /// So many zeros.
    Zeros(u32),
    /// The address of what follows.
    Origin(u32),
    /// Zeros up to a multiple of this power of two; None where there is no such alignment.
    Aligned(Option<u8>),
}

/// What a line says: a label of what follows, and a statement.
#[derive(Drop)]
pub struct Line<'a> {
    pub label: Option<Name<'a>>,
    pub item: Option<Item<'a>>,
}

//! The tags of each side.

ghost use Rattle.std.specs.Prelude.{◌≡◌, ◌<◌, ◌/◌, ◌^◌, false, slice_set, IfOk};
ghost use Rattle.primary_caches.specs.Tag as law;
ghost use Rattle.primary_caches.specs.Tag.{IsGeometry};

use crate::tag_array::{Tag, TagArray};
use std::alloc::{AllocError, Global};
use std::marker::Model;

/// The tags of a data cache of SIZE bytes in lines of LINE bytes.
#[derive(Drop)]
pub struct DTags<const LINE: usize, const SIZE: usize> {
    array: TagArray<LINE, SIZE>,
}

impl<const LINE: usize, const SIZE: usize> Model for DTags<LINE, SIZE> {
    ghost use Rattle.std.specs.Prelude.{List};
    ghost use Rattle.primary_caches.specs.declared.tag_array.Tag.{Tag};

    ghost Value = { List Tag };

    ghost view = { λ tags. tags.array };
}

impl<const LINE: usize, const SIZE: usize> DTags<LINE, SIZE> {
    /// The tags of a data cache without a line.
    pub fn new(alloc: Global) -> Result<Self, AllocError>
        requires geometry { IsGeometry LINE SIZE }
        ensures empty { IfOk result (λ tags. tags ≡ law.no_lines (SIZE / LINE)) }
    {
        Ok(DTags {
            array: TagArray::new(alloc)?,
        })
    }

    /// Whether the tag at va's index is that of a line of pa's page.
    pub fn look(&self, va: u32, pa: u64) -> bool
        ensures hit { result ≡ law.is_of_page (law.tag_at self.now (law.index_of LINE SIZE va)) pa }
    {
        self.array.look(va, pa)
    }

    /// The tag at an index.
    pub fn tag(&self, index: u32) -> Tag
        requires index { index < SIZE / LINE }
        ensures tag { result ≡ law.tag_at self.now index }
        ensures page { result.page < 2 ^ 24 }
    {
        self.array.tag(index)
    }

    /// Replaces the tag at an index, and no other.
    pub fn set(&mut self, index: u32, tag: Tag)
        requires index { index < SIZE / LINE }
        requires page { tag.page < 2 ^ 24 }
        ensures set { self.new ≡ slice_set self.old index tag }
    {
        self.array.set(index, tag);
    }
}

/// The tags of an instruction cache of SIZE bytes in lines of LINE bytes.
#[derive(Drop)]
pub struct ITags<const LINE: usize, const SIZE: usize> {
    array: TagArray<LINE, SIZE>,
}

impl<const LINE: usize, const SIZE: usize> Model for ITags<LINE, SIZE> {
    ghost use Rattle.std.specs.Prelude.{List, All};
    ghost use Rattle.primary_caches.specs.declared.tag_array.Tag.{Tag};
    ghost use Rattle.primary_caches.specs.Tag.{IsClean};

    ghost Value = { List Tag };

    ghost view = { λ tags. tags.array };

    ghost invariant = { λ tags. All IsClean tags.array };
}

impl<const LINE: usize, const SIZE: usize> ITags<LINE, SIZE> {
    /// The tags of an instruction cache without a line.
    pub fn new(alloc: Global) -> Result<Self, AllocError>
        requires geometry { IsGeometry LINE SIZE }
        ensures empty { IfOk result (λ tags. tags ≡ law.no_lines (SIZE / LINE)) }
    {
        Ok(ITags {
            array: TagArray::new(alloc)?,
        })
    }

    /// Whether the tag at va's index is that of a line of pa's page.
    pub fn look(&self, va: u32, pa: u64) -> bool
        ensures hit { result ≡ law.is_of_page (law.tag_at self.now (law.index_of LINE SIZE va)) pa }
    {
        self.array.look(va, pa)
    }

    /// The tag at an index.
    pub fn tag(&self, index: u32) -> Tag
        requires index { index < SIZE / LINE }
        ensures tag { result ≡ law.tag_at self.now index }
        ensures page { result.page < 2 ^ 24 }
        ensures clean { result.dirty ≡ false }
    {
        self.array.tag(index)
    }

    /// Replaces the tag at an index, and no other.
    pub fn set(&mut self, index: u32, tag: Tag)
        requires index { index < SIZE / LINE }
        requires page { tag.page < 2 ^ 24 }
        requires clean { tag.dirty ≡ false }
        ensures set { self.new ≡ slice_set self.old index tag }
    {
        self.array.set(index, tag);
    }
}

//! A tag, and the tags of one cache.

ghost use Rattle.std.specs.Prelude.{◌≡◌, ◌<◌, ◌/◌, ◌%◌, ◌^◌, length, slice_set, IfOk};
ghost use Rattle.primary_caches.specs.Tag as law;
ghost use Rattle.primary_caches.specs.Tag.{IsGeometry};

use std::alloc::{AllocError, Global};
use std::marker::Model;

/// What a cache has beside the bytes of a line: the page is bits 35 to 12 of the line's physical address.
#[derive(Clone, Copy)]
pub struct Tag {
    pub page: u32,
    pub valid: bool,
    pub dirty: bool,
}

/// The tag of a place without a line.
const NO_LINE: Tag = Tag {
    page: 0,
    valid: false,
    dirty: false,
};

/// The tags of a cache of SIZE bytes in lines of LINE bytes.
#[derive(Drop)]
pub struct TagArray<const LINE: usize, const SIZE: usize> {
    tags: Vec<Tag>,
}

impl<const LINE: usize, const SIZE: usize> Model for TagArray<LINE, SIZE> {
    ghost use Rattle.std.specs.Prelude.{List};
    ghost use Rattle.primary_caches.specs.declared.tag_array.Tag.{Tag};
    ghost use Rattle.primary_caches.specs.Tag.{IsArray};

    ghost Value = { List Tag };

    ghost view = { λ array. array.tags.items };

    ghost invariant = { λ array. IsArray LINE SIZE array.tags.items };
}

impl<const LINE: usize, const SIZE: usize> TagArray<LINE, SIZE> {
    /// The tags of a cache without a line.
    #[tactic(auto, unfolding(crate::specs::Tag::no_lines))]
    pub fn new(alloc: Global) -> Result<Self, AllocError>
        requires geometry { IsGeometry LINE SIZE }
        ensures empty { IfOk result (λ tags. tags ≡ law.no_lines (SIZE / LINE)) }
    {
        Ok(TagArray {
            tags: vec![in alloc; NO_LINE; SIZE / LINE]?,
        })
    }

    /// Whether the tag at va's index is that of a line of pa's page.
    pub fn look(&self, va: u32, pa: u64) -> bool
        ensures hit { result ≡ law.is_of_page (law.tag_at self.now (law.index_of LINE SIZE va)) pa }
    {
        let tags = &self.tags;
        let tag = tags[va as usize % SIZE / LINE];
        tag.valid && u64::from(tag.page) == pa / 4096 % (1 << 24)
    }

    /// The tag at an index.
    pub fn tag(&self, index: u32) -> Tag
        requires index { index < SIZE / LINE }
        ensures tag { result ≡ law.tag_at self.now index }
        ensures page { result.page < 2 ^ 24 }
    {
        self.tags[index as usize]
    }

    /// Replaces the tag at an index, and no other.
    pub fn set(&mut self, index: u32, tag: Tag)
        requires index { index < SIZE / LINE }
        requires page { tag.page < 2 ^ 24 }
        ensures set { self.new ≡ slice_set self.old index tag }
    {
        self.tags[index as usize] = tag;
    }
}

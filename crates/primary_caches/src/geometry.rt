//! The tags of both caches of a machine.

ghost use Rattle.std.specs.Prelude.{◌≡◌, ◌<◌, ◌^◌, ◌/◌, false, slice_set, IfOk};
ghost use Rattle.primary_caches.specs.Tag as law;
ghost use Rattle.primary_caches.specs.Tag.{IsGeometry};
ghost use Rattle.primary_caches.specs.TagLists.{IsBuilt, IsFull, empty_lists, place_of};

use crate::sides::{DTags, ITags};
use crate::tag_array::Tag;
use std::alloc::{AllocError, Global};
use std::marker::Model;

/// The tags of both caches of one geometry.
#[derive(Drop)]
pub struct Pair<const LINE: usize, const SIZE: usize> {
    i: ITags<LINE, SIZE>,
    d: DTags<LINE, SIZE>,
}

/// The geometries that there are.
#[derive(Drop)]
enum Geometry {
    Narrow(Pair<16, 8192>),
    Wide(Pair<32, 8192>),
}

/// The tags of both primary caches of a machine.
#[derive(Drop)]
pub struct Tags {
    geometry: Geometry,
}

impl Model for Tags {
    ghost use Rattle.primary_caches.specs.TagLists.{TagLists};

    ghost Value = { TagLists };

    ghost use Rattle.primary_caches.specs.Geometry.{lists_of, IsWhole};

    ghost view = { λ tags. lists_of tags.geometry };

    ghost invariant = { λ tags. IsWhole tags.geometry };
}

// The tags of both caches without a line.
fn empty_pair<const LINE: usize, const SIZE: usize>(
    alloc: Global,
) -> Result<Pair<LINE, SIZE>, AllocError>
    requires geometry { IsGeometry LINE SIZE }
    ensures empty { IfOk result (λ pair. (pair.i ≡ law.no_lines (SIZE / LINE)) × (pair.d ≡ law.no_lines (SIZE / LINE))) }
{
    Ok(Pair {
        i: ITags::new(alloc)?,
        d: DTags::new(alloc)?,
    })
}

impl Tags {
    /// Caches of `size` bytes in lines of `line` bytes, without a line.
    pub fn new(alloc: Global, line: u32, size: u32) -> Result<Tags, AllocError>
        requires built { IsBuilt line size }
        ensures empty { IfOk result (λ tags. tags ≡ empty_lists line size) }
    {
        match (line, size) {
            (16, 8192) => Ok(Tags {
                geometry: Geometry::Narrow(empty_pair(alloc)?),
            }),
            (32, 8192) => Ok(Tags {
                geometry: Geometry::Wide(empty_pair(alloc)?),
            }),
            _ => unreachable!(),
        }
    }

    /// The bytes of a line.
    pub fn line(&self) -> u32
        ensures is { result ≡ self.now.line }
        ensures whole { IsFull self.now }
    {
        match &self.geometry {
            Geometry::Narrow(_) => 16,
            Geometry::Wide(_) => 32,
        }
    }

    /// The bytes of each cache.
    pub fn size(&self) -> u32
        ensures is { result ≡ self.now.size }
        ensures whole { IsFull self.now }
    {
        match &self.geometry {
            Geometry::Narrow(_) | Geometry::Wide(_) => 8192,
        }
    }

    /// The number of places of each cache.
    pub fn places(&self) -> u32
        ensures is { result ≡ self.now.places }
        ensures whole { IsFull self.now }
    {
        self.size() / self.line()
    }

    /// Whether the instruction cache has the line of va and pa.
    pub fn look_i(&self, va: u32, pa: u64) -> bool
        ensures hit { result ≡ law.is_of_page (law.tag_at self.now.i (place_of self.now va)) pa }
    {
        match &self.geometry {
            Geometry::Narrow(pair) => pair.i.look(va, pa),
            Geometry::Wide(pair) => pair.i.look(va, pa),
        }
    }

    /// Whether the data cache has the line of va and pa.
    pub fn look_d(&self, va: u32, pa: u64) -> bool
        ensures hit { result ≡ law.is_of_page (law.tag_at self.now.d (place_of self.now va)) pa }
    {
        match &self.geometry {
            Geometry::Narrow(pair) => pair.d.look(va, pa),
            Geometry::Wide(pair) => pair.d.look(va, pa),
        }
    }

    /// The tag of the instruction cache at an index.
    pub fn i(&self, index: u32) -> Tag
        requires index { index < self.now.places }
        ensures tag { result ≡ law.tag_at self.now.i index }
        ensures page { result.page < 2 ^ 24 }
        ensures clean { result.dirty ≡ false }
    {
        match &self.geometry {
            Geometry::Narrow(pair) => pair.i.tag(index),
            Geometry::Wide(pair) => pair.i.tag(index),
        }
    }

    /// The tag of the data cache at an index.
    pub fn d(&self, index: u32) -> Tag
        requires index { index < self.now.places }
        ensures tag { result ≡ law.tag_at self.now.d index }
        ensures page { result.page < 2 ^ 24 }
    {
        match &self.geometry {
            Geometry::Narrow(pair) => pair.d.tag(index),
            Geometry::Wide(pair) => pair.d.tag(index),
        }
    }

    /// Replaces the tag of the instruction cache at an index, and no other.
    pub fn set_i(&mut self, index: u32, tag: Tag)
        requires index { index < self.old.places }
        requires page { tag.page < 2 ^ 24 }
        requires clean { tag.dirty ≡ false }
        ensures set { self.new ≡ record self.old { i = slice_set self.old.i index tag } }
    {
        match &mut self.geometry {
            Geometry::Narrow(pair) => pair.i.set(index, tag),
            Geometry::Wide(pair) => pair.i.set(index, tag),
        }
    }

    /// Replaces the tag of the data cache at an index, and no other.
    pub fn set_d(&mut self, index: u32, tag: Tag)
        requires index { index < self.old.places }
        requires page { tag.page < 2 ^ 24 }
        ensures set { self.new ≡ record self.old { d = slice_set self.old.d index tag } }
    {
        match &mut self.geometry {
            Geometry::Narrow(pair) => pair.d.set(index, tag),
            Geometry::Wide(pair) => pair.d.set(index, tag),
        }
    }
}

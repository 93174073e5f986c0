//! A shape, and the parts of an address on it.

ghost use Rattle.std.specs.Prelude.{◌≡◌, ◌<◌, ◌≤◌, ◌+◌, ◌*◌, ◌/◌, ◌%◌, ◌^◌, true};
ghost use Rattle.r4_shape.specs.Address as address;
ghost use Rattle.r4_shape.specs.Config.{block_field, config_of, size_field};
ghost use Rattle.r4_shape.specs.Powers.{logarithm};
ghost use Rattle.r4_shape.specs.Numbers.{HasPages, IsGroup, IsLine, IsPrim, IsShape, IsSize, colours, page_lines, places, primary_alone, secondary_places, with_secondary};

use std::marker::Model;

/// The logarithm of the bytes of a page.
const PAGE_BITS: u32 = 12;

/// A shape of the caches: one of those that have a name. It keeps the logarithms of its numbers, so that an address is cut by
/// shifts and masks.
#[derive(Clone, Copy)]
pub struct Shape {
    sc: bool,
    prim_bits: u32,
    line_bits: u32,
    group_bits: u32,
    size_bits: u32,
}

impl Model for Shape {
    ghost use Rattle.r4_shape.specs.Numbers.{Numbers};
    ghost use Rattle.r4_shape.specs.Powers.{ArePowers, logarithm, numbers_of, secondary_logarithm};

    ghost Value = { Numbers };

    ghost view = { λ shape. numbers_of shape.sc shape.prim_bits shape.line_bits shape.group_bits shape.size_bits };

    ghost invariant = { λ shape. ArePowers shape.sc shape.prim_bits shape.line_bits shape.group_bits shape.size_bits };

    ghost inverse = { λ shape. record {
      sc = shape.sc;
      prim_bits = logarithm shape.prim;
      line_bits = logarithm shape.line;
      group_bits = secondary_logarithm shape.sc shape.group;
      size_bits = secondary_logarithm shape.sc shape.size;
    } };

    ghost inverse_ok = { λ a is i. record {
      sc = a.sc;
      prim_bits = is.prim_back i;
      line_bits = is.line_back i;
      group_bits = is.group_back i;
      size_bits = is.size_back i;
    } };
}

// The logarithm of a power of two.
fn bits_of(number: u32) -> u32
    ensures is { result ≡ logarithm number }
{
    number.trailing_zeros()
}

// What Config shows of a line of so many bytes, by their logarithm.
fn block_field(bits: u32) -> u32
    requires least { 4 ≤ bits }
    requires most { bits ≤ 7 }
    ensures field { result ≡ block_field (2 ^ bits) }
{
    bits - 4
}

impl Shape {
    /// Primary caches of `prim` bytes alone, in lines of `line` bytes.
    pub fn primary_alone(prim: u32, line: u32) -> Shape
        requires prim { IsPrim prim }
        requires line { IsLine line }
        ensures is { result ≡ primary_alone prim line }
    {
        Shape {
            sc: false,
            prim_bits: bits_of(prim),
            line_bits: bits_of(line),
            group_bits: 0,
            size_bits: 0,
        }
    }

    /// Primary caches before a secondary cache of `size` bytes in lines of `group` bytes.
    pub fn with_secondary(prim: u32, line: u32, group: u32, size: u32) -> Shape
        requires prim { IsPrim prim }
        requires line { IsLine line }
        requires group { IsGroup group }
        requires holds { line ≤ group }
        requires size { IsSize size }
        ensures is { result ≡ with_secondary prim line group size }
    {
        Shape {
            sc: true,
            prim_bits: bits_of(prim),
            line_bits: bits_of(line),
            group_bits: bits_of(group),
            size_bits: bits_of(size),
        }
    }

    /// Whether there is a secondary cache.
    #[inline]
    pub fn sc(&self) -> bool
        ensures is { result ≡ self.now.sc }
        ensures shape { IsShape self.now }
    {
        self.sc
    }

    /// The bytes of each primary cache.
    #[inline]
    pub fn prim(&self) -> u32
        ensures is { result ≡ self.now.prim }
        ensures shape { IsShape self.now }
        ensures pages { HasPages self.now }
    {
        1 << self.prim_bits
    }

    /// The bytes of a line of the primary caches.
    #[inline]
    pub fn line(&self) -> u32
        ensures is { result ≡ self.now.line }
        ensures shape { IsShape self.now }
    {
        1 << self.line_bits
    }

    /// The bytes of a line of the secondary cache, 0 where there is none.
    #[inline]
    pub fn group(&self) -> u32
        ensures is { result ≡ self.now.group }
        ensures shape { IsShape self.now }
    {
        if self.sc { 1 << self.group_bits } else { 0 }
    }

    /// The bytes of the secondary cache, 0 where there is none.
    #[inline]
    pub fn size(&self) -> u32
        ensures is { result ≡ self.now.size }
        ensures shape { IsShape self.now }
    {
        if self.sc { 1 << self.size_bits } else { 0 }
    }

    /// The lines of each primary cache.
    #[inline]
    pub fn places(&self) -> u32
        ensures is { result ≡ places self.now }
    {
        1 << (self.prim_bits - self.line_bits)
    }

    /// The colours: how many pages a primary cache has.
    #[inline]
    pub fn colours(&self) -> u32
        ensures is { result ≡ colours self.now }
    {
        1 << (self.prim_bits - PAGE_BITS)
    }

    /// The logarithm of the granules of a page.
    #[inline]
    pub fn page_bits(&self) -> u32
        ensures is { 2 ^ result ≡ page_lines self.now }
        ensures most { result ≤ 8 }
    {
        PAGE_BITS - self.line_bits
    }

    // Where a virtual address lies in a primary cache.
    #[inline]
    fn within(&self, va: u32) -> u32
        ensures is { result ≡ va % self.now.prim }
        ensures inside { result < self.now.prim }
        ensures prim { self.now.prim ≡ 8192 }
    {
        va & ((1 << self.prim_bits) - 1)
    }

    /// The index of a virtual address in the primary caches.
    #[inline]
    pub fn index(&self, va: u32) -> u32
        ensures is { result ≡ address.index self.now va }
        ensures place { result < places self.now }
    {
        self.within(va) >> self.line_bits
    }

    /// The place of an address in its line of a primary cache.
    #[inline]
    pub fn offset(&self, pa: u64) -> u32
        ensures is { result ≡ pa % self.now.line }
    {
        (pa & ((1 << self.line_bits) - 1)) as u32
    }

    /// The colour of a virtual address.
    #[inline]
    pub fn colour(&self, va: u32) -> u32
        ensures is { result ≡ address.colour self.now va }
        ensures few { result < colours self.now }
    {
        self.within(va) >> PAGE_BITS
    }

    /// The bits of a virtual address that the secondary cache keeps of a line.
    pub fn pidx(&self, va: u32) -> u8
        ensures is { result ≡ address.pidx va }
        ensures few { result < 8 }
    {
        (va >> PAGE_BITS & 7) as u8
    }

    /// The number of the primary line of an address in RAM.
    #[inline]
    pub fn granule(&self, pa: u64) -> u32
        requires ram { pa < 8388608 }
        ensures is { result ≡ address.granule self.now pa }
        ensures inside { result < 8388608 / self.now.line }
    {
        (pa >> self.line_bits) as u32
    }

    /// How many primary lines so many bytes have, which are whole lines.
    #[inline]
    pub fn lines_in(&self, bytes: u32) -> u32
        ensures is { result ≡ bytes / self.now.line }
    {
        bytes >> self.line_bits
    }

    /// The number of a copy in a primary cache, of a granule at a colour, among all that there can be: the copies of a page together
    /// are as many as a cache has lines.
    #[inline]
    pub fn copy_of(&self, granule: u32, colour: u32) -> u32
        requires granule { granule < 8388608 / self.now.line }
        requires colour { colour < colours self.now }
        ensures is { result ≡ address.copy_of self.now granule colour }
    {
        let page_bits = PAGE_BITS - self.line_bits;
        let page = granule >> page_bits;
        let within = granule & ((1 << page_bits) - 1);
        (page << (self.prim_bits - self.line_bits)) + ((colour << page_bits) + within)
    }

    /// The number of the copy that an access means. Its addresses have one place in their pages.
    #[inline]
    pub fn accessed_copy(&self, pa: u64, va: u32) -> u32
        requires ram { pa < 8388608 }
        requires page { pa % 4096 ≡ va % 4096 }
        ensures is { result ≡ address.copy_of self.now (address.granule self.now pa) (address.colour self.now va) }
    {
        let page = (pa >> PAGE_BITS) as u32;
        (page << (self.prim_bits - self.line_bits)) + self.index(va)
    }

    /// The first address of the primary line of an address.
    #[inline]
    pub fn line_start(&self, pa: u64) -> u64
        ensures is { result ≡ pa / self.now.line * self.now.line }
    {
        pa >> self.line_bits << self.line_bits
    }

    /// The number of the secondary line of an address in RAM.
    #[inline]
    pub fn group_of(&self, pa: u64) -> u32
        requires secondary { self.now.sc ≡ true }
        requires ram { pa < 8388608 }
        ensures is { result ≡ address.group_of self.now pa }
    {
        (pa >> self.group_bits) as u32
    }

    /// The first address of the secondary line of an address.
    #[inline]
    pub fn group_start(&self, pa: u64) -> u64
        requires secondary { self.now.sc ≡ true }
        ensures is { result ≡ pa / self.now.group * self.now.group }
    {
        pa >> self.group_bits << self.group_bits
    }

    /// The place of an address in its line of the secondary cache.
    #[inline]
    pub fn group_offset(&self, pa: u64) -> u32
        requires secondary { self.now.sc ≡ true }
        ensures is { result ≡ pa % self.now.group }
    {
        (pa & ((1 << self.group_bits) - 1)) as u32
    }

    /// How many primary lines lie in a line of the secondary cache, 0 where there is none.
    #[inline]
    pub fn lines_in_group(&self) -> u32
        ensures is { result ≡ self.now.group / self.now.line }
    {
        self.lines_in(self.group())
    }

    /// The place of a physical address in the secondary cache.
    #[inline]
    pub fn place(&self, pa: u64) -> u32
        requires secondary { self.now.sc ≡ true }
        ensures is { result ≡ address.place self.now pa }
        ensures place { result < secondary_places self.now }
    {
        let within = pa & ((1 << self.size_bits) - 1);
        (within >> self.group_bits) as u32
    }

    /// The register Config at reset.
    pub fn config(&self) -> u32
        ensures is { result ≡ config_of self.now }
    {
        let block = block_field(self.line_bits);
        let size = self.prim_bits - PAGE_BITS;
        let secondary = if self.sc {
            block_field(self.group_bits) << 22
        } else {
            1 << 17
        };
        3 + (block << 4) + (block << 5) + (size << 6) + (size << 9) + (1 << 15) + secondary
    }
}

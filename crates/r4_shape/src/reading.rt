//! The shape of a name.

ghost use Rattle.std.specs.Prelude.{◌≡◌, ◌≤◌, ◌==◌, None};
ghost use Rattle.std.specs.List.{before_first, after_first};
ghost use Rattle.r4_shape.specs.Names.{group_names, primary_names, secondary_names, shape_of, size_names, slash};
ghost use Rattle.r4_shape.specs.Names as law;
ghost use Rattle.r4_shape.specs.Numbers.{IsGroup, IsLine, IsPrim};

use crate::numbers::Shape;

/// The bytes of a primary cache.
const PRIM: u32 = 8192;

// A text before its first slash, or all of it where there is none, and after that slash.
fn cut(text: &str) -> (&str, &str)
    ensures before { result.0.now ≡ before_first (λ code. code == slash) text.now }
    ensures after { result.1.now ≡ after_first (λ code. code == slash) text.now }
{
    text.split_once('/').unwrap_or((text, ""))
}

// The shape of SIZE.
fn read_size(prim: u32, line: u32, group: u32, text: &str) -> Option<Shape>
    requires prim { IsPrim prim }
    requires line { IsLine line }
    requires group { IsGroup group }
    requires holds { line ≤ group }
    ensures shape { result ≡ shape_of (size_names prim line group) text.now }
{
    if text == "128K" {
        Some(Shape::with_secondary(prim, line, group, 0x2_0000))
    } else if text == "256K" {
        Some(Shape::with_secondary(prim, line, group, 0x4_0000))
    } else if text == "512K" {
        Some(Shape::with_secondary(prim, line, group, 0x8_0000))
    } else if text == "1M" {
        Some(Shape::with_secondary(prim, line, group, 0x10_0000))
    } else {
        None
    }
}

// The shape of LS/SIZE.
#[tactic(auto, using(crate::proofs::Lookup::length_of))]
fn read_group(prim: u32, line: u32, text: &str) -> Option<Shape>
    requires prim { IsPrim prim }
    requires line { IsLine line }
    ensures shape { result ≡ shape_of (group_names prim line) text.now }
{
    let (group, rest) = cut(text);
    if group == "16" {
        if line <= 16 {
            read_size(prim, line, 16, rest)
        } else {
            None
        }
    } else if group == "32" {
        read_size(prim, line, 32, rest)
    } else if group == "64" {
        read_size(prim, line, 64, rest)
    } else if group == "128" {
        read_size(prim, line, 128, rest)
    } else {
        None
    }
}

// The shape of L/LS/SIZE.
#[tactic(auto, using(crate::proofs::Lookup::line_of))]
fn read_secondary(prim: u32, text: &str) -> Option<Shape>
    requires prim { IsPrim prim }
    ensures shape { result ≡ shape_of (secondary_names prim) text.now }
{
    let (line, rest) = cut(text);
    if line == "16" {
        read_group(prim, 16, rest)
    } else if line == "32" {
        read_group(prim, 32, rest)
    } else {
        None
    }
}

// The shape of L.
fn read_primary(prim: u32, text: &str) -> Option<Shape>
    requires prim { IsPrim prim }
    ensures shape { result ≡ shape_of (primary_names prim) text.now }
{
    if text == "16" {
        Some(Shape::primary_alone(prim, 16))
    } else if text == "32" {
        Some(Shape::primary_alone(prim, 32))
    } else {
        None
    }
}

/// The shape of a name: `pc/L` or `sc/L/LS/SIZE`, None for every other text.
#[tactic(auto, using(crate::proofs::Lookup::kind_of))]
pub fn read_shape(text: &str) -> Option<Shape>
    ensures shape { result ≡ law.read_shape text.now }
{
    let (kind, rest) = cut(text);
    if kind == "pc" {
        read_primary(PRIM, rest)
    } else if kind == "sc" {
        read_secondary(PRIM, rest)
    } else {
        None
    }
}

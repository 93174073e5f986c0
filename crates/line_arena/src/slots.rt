//! What is asked of the holders' slots, and the bytes of one.

ghost use Rattle.std.specs.Prelude.{◌≡◌, ◌+◌, ◌<◌, ◌≤◌, Some, IfSome, length, position};
ghost use Rattle.line_arena.specs.Holding as law;

// Whether a holder's slot is this one.
#[inline]
fn is_slot(slot: usize, held: Option<usize>) -> bool
    ensures { result ≡ law.is_slot (Some slot) held }
{
    match held {
        Some(other) => other == slot,
        None => false,
    }
}

/// The lowest holder of a slot.
pub(crate) fn lowest(slot: usize, held: &[Option<usize>]) -> Option<usize>
    ensures lowest { result ≡ position (law.is_slot (Some slot)) held.now }
    ensures inside { IfSome result (λ holder. holder < length held.now) }
{
    held.iter().position(|other| is_slot(slot, *other))
}

/// Replaces bytes of a slot from a place on.
pub(crate) fn put_bytes(all: &mut [u8; 32], at: usize, bytes: &[u8])
    requires { at + length bytes.now ≤ 32 }
    ensures { all.new ≡ law.put_bytes at bytes.now all.old }
{
    all[at..at + bytes.len()].copy_from_slice(bytes);
}

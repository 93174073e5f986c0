// Parts of a file.
ghost use Rattle.std.specs.Prelude.{◌≡◌, ◌+◌, ◌≤◌, length};
ghost use Rattle.flat_ram.specs.Bytes as law;

/// So many bytes from an offset on.
pub fn part(bytes: &[u8], from: usize, count: usize) -> &[u8]
    requires { from + count ≤ length bytes.now }
    ensures value { result.now ≡ law.bytes_at bytes.now from count }
    ensures len { length result.now ≡ count }
{
    &bytes[from..from + count]
}

// Bytes written into a lent buffer: one byte, and copies. Every other byte stays as it was.
#![tactic(auto)]

ghost use Rattle.std.specs.Prelude.{◌≡◌, [], ◌∷◌, ◌+◌, ◌≤◌, ◌<◌, length, drop};
ghost use Rattle.std.proofs.Math.Seq.{paste};
ghost use Rattle.writing.specs.Written.{Wrote};

// Writes one byte, and answers the place behind it.
pub fn put_byte(out: &mut [u8], at: usize, byte: u8) -> usize
    requires { at < length out.old }
    ensures { Wrote out.old at (byte ∷ []) result out.new }
{
    out[at] = byte;
    at + 1
}

// Copies count bytes from place `from` to place `to` behind them. The library's copy_within, which copies either way, takes more time and stack.
pub fn copy_within(bytes: &mut [u8], from: usize, to: usize, count: usize)
    requires { (from + count ≤ to) × (to + count ≤ length bytes.old) }
    ensures { bytes.new ≡ paste bytes.old to (drop from bytes.old) count }
{
    for i in 0..count {
        bytes[to + i] = bytes[from + i];
    }
}

// Copies count bytes of another array, from place `from` on, to place `to`. The library's copy_from_slice would call memmove, which an archive for C
// then needs from outside.
pub fn copy_from(bytes: &mut [u8], to: usize, other: &[u8], from: usize, count: usize)
    requires { (to + count ≤ length bytes.old) × (from + count ≤ length other.now) }
    ensures { bytes.new ≡ paste bytes.old to (drop from other.now) count }
{
    for i in 0..count {
        bytes[to + i] = other[from + i];
    }
}

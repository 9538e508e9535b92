// Questions to generators, which stand in an array as rows of m bytes.
ghost use Rattle.std.specs.Prelude.{◌≡◌, ◌+◌, ◌*◌, ◌≤◌, ◌<◌, length, take, drop};
ghost use Rattle.terms.specs.Ideal.{inside_test};
ghost use Rattle.completion.specs.Slices.{fresh};
ghost use Rattle.blocks.specs.Bytes.{part};

use crate::bytes::divides_at;

// Whether one of the count rows of m bytes from byte `from` on divides the row at byte q.
fn inside_ideal(m: usize, bytes: &[u8], from: usize, count: usize, q: usize) -> bool
    requires { (from + count * m ≤ length bytes.now) × (q + m ≤ length bytes.now) }
    ensures { result ≡ inside_test (part m count from bytes.now) (take m (drop q bytes.now)) }
{
    (0..count).any(|row| divides_at(m, bytes, from + row * m, q))
}

// Whether one of the `more` rows behind the `count` rows lies outside the ideal of these.
pub fn grows(m: usize, bytes: &[u8], from: usize, count: usize, more: usize) -> bool
    requires { from + count * m + more * m ≤ length bytes.now }
    ensures { result ≡ fresh (part m count from bytes.now) (part m more (from + count * m) bytes.now) }
{
    let behind = from + count * m;
    (0..more).any(|row| !inside_ideal(m, bytes, from, count, behind + row * m))
}

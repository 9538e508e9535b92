// Bytes in an array: divisibility where they stand.
ghost use Rattle.std.specs.Prelude.{◌≡◌, ◌+◌, ◌≤◌, ◌<◌, length, take, drop};
ghost use Rattle.terms.specs.Ideal.{divides_test};

// Whether the m bytes from i on divide those from j on.
pub fn divides_at(m: usize, bytes: &[u8], i: usize, j: usize) -> bool
    requires { (i + m ≤ length bytes.now) × (j + m ≤ length bytes.now) }
    ensures { result ≡ divides_test (take m (drop i bytes.now)) (take m (drop j bytes.now)) }
{
    // From the last exponent on: of rows that stand in order, most pairs fail there sooner.
    (0..m).rev().all(|x| bytes[i + x] <= bytes[j + x])
}

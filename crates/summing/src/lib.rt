// The sums over the rows of a checked table, without the checks: a caller that wants many degrees of one table checks once.
#![tactic(auto)]

ghost use Rattle.std.specs.Prelude.{◌≡◌, ℕ, ℤ, ◌+◌, ◌*◌, ◌≤◌, ◌<◌, length, pos};
ghost use Rattle.terms.specs.Monomials.{degree};
ghost use Rattle.terms.specs.Rows.{rows_of};
ghost use Rattle.counts.specs.Counts.{count_at, share, signed_share, polynomial_at, steady_of};
ghost use Rattle.summing.specs.Sums.{shares_of, Summable, AtRows, largest_share, Within, Checked, Marked};

use binomial::choose;
use terms::{Degree, FlatTable};

// The degree of a row.
fn row_degree(row: &[u8]) -> Degree
    requires { length row.now ≤ 6 }
    ensures { result.0 ≡ degree row.now }
{
    Degree(row.iter().map(|e| usize::from(*e)).sum())
}

// What a row of degree d with m marks takes away at s (rule 7).
#[tactic(auto, using(crate::proofs::PassLaws::share_cases))]
fn share(s: Degree, d: Degree, m: usize) -> i64
    requires { (s.0 ≤ 300) × (d.0 ≤ 300) × (m ≤ 6) }
    ensures { result ≡ pos (share s.0 d.0 m) }
{
    if s.0 < d.0 {
        return 0;
    }
    choose(s.0 - d.0 + m, m) as i64
}

// The share of a row of degree d with m marks at s, no row left out (rule 8). Where the binomial's top would be negative it has a sign.
#[tactic(auto, using(crate::proofs::PassLaws::signed_cases))]
fn signed_share(s: Degree, d: Degree, m: usize) -> i64
    requires { (s.0 ≤ 300) × (d.0 ≤ 300) × (m ≤ 6) }
    ensures { result ≡ signed_share s.0 d.0 m }
{
    if d.0 <= s.0 + m {
        return choose(s.0 + m - d.0, m) as i64;
    }
    let size = choose(d.0 - s.0 - 1, m) as i64;
    if m % 2 == 1 { -size } else { size }
}

// The shares of all rows, each by `share` from its degree and its number of marks; these stand in `marks`, a byte a row.
fn shares<F: Fn(Degree, usize) -> i64>(table: FlatTable, marks: &[u8], share: F) -> i64
    requires summable { Summable table.n table.bytes.now marks.now }
    requires callable { AtRows (F.pre share) }
    requires small { AtRows (λ d m. (r : ℤ) → F.post share d m r → Within largest_share r) }
    ensures bounded { Within (4096 * largest_share) result }
    ensures sum { (f : ℕ → ℕ → ℤ) → AtRows (λ d m. (r : ℤ) → F.post share d m r → r ≡ f d.0 m)
        → result ≡ shares_of f (rows_of table.entry) marks.now }
{
    let mut sum = 0;
    for (row, mark) in table.bytes.chunks_exact(table.n).zip(marks) {
        sum += share(row_degree(row), mark.count_ones() as usize);
    }
    sum
}

// The count at s (rule 7) of a table that was checked and marked.
pub fn count_sum(table: FlatTable, marks: &[u8], s: Degree) -> u64
    requires { Checked table.n table.bytes.now × Marked table.n table.bytes.now marks.now × (s.0 ≤ 300) }
    ensures { result ≡ count_at table.entry.n (rows_of table.entry) s.0 }
{
    choose(table.n + s.0, table.n) - shares(table, marks, |d, m| share(s, d, m)) as u64
}

// The polynomial at s (rule 8) of a table that was checked and marked.
#[tactic(auto, using(crate::proofs::PassLaws::binomials_fit))]
pub fn polynomial_sum(table: FlatTable, marks: &[u8], s: Degree) -> i64
    requires { Checked table.n table.bytes.now × Marked table.n table.bytes.now marks.now × (s.0 ≤ 300) }
    ensures { result ≡ polynomial_at table.entry.n (rows_of table.entry) s.0 }
{
    choose(table.n + s.0, table.n) as i64 - shares(table, marks, |d, m| signed_share(s, d, m))
}

// The largest degree of a row (rule 9), 0 for no rows.
pub fn largest_degree(table: FlatTable) -> Degree
    requires { (0 < table.n) × (table.n ≤ 6) }
    ensures { result.0 ≡ steady_of (rows_of table.entry) }
{
    let degrees = table
        .bytes
        .chunks_exact(table.n)
        .map(|row| row_degree(row).0);
    Degree(degrees.max().unwrap_or(0))
}

// What every operation stands on: a row by value, the three counters, rows of a flat table, divisibility, the order
// of rows, and the checks 1 to 4 that all operations on a table share.
#![tactic(auto)]

ghost use Rattle.std.specs.Prelude.{◌≡◌, suc, ◌+◌, ◌*◌, ◌≤◌, ◌<◌, ltb, length, take, drop, get_or};
ghost use Rattle.checks.specs.Tests.{any};
ghost use Rattle.terms.specs.Monomials.{◌!◌, row_at, LargestOf};
ghost use Rattle.terms.specs.Ideal.{FirstFailure, divides_test};
ghost use Rattle.terms.specs.Order.{precedes_test, ascending_test};
ghost use Rattle.terms.specs.Rows.{rows_of, as_row, put_row};
ghost use Rattle.terms.specs.Keys.{row_key, FrontAscends};
ghost use Rattle.checks.specs.Refusals.{refusal};
ghost use Rattle.checks.specs.Outcomes.{number_of};
ghost use Rattle.terms.specs.TableChecks.{table_checks};

use checks::Refusal;

// The most rows that a table may have, and the largest entry.
pub const MOST_ROWS: usize = 4096;

const LARGEST_ENTRY: u8 = 50;

// A row: its six exponents, of which the first n count and the others are 0.
#[derive(Clone, Copy)]
pub struct Row {
    pub exponents: [u8; 6],
    pub n: usize,
}

// The number of a variable, from 1; 0 is no variable.
#[derive(Clone, Copy, PartialEq, Eq, PartialOrd, Ord)]
pub struct Variable(pub usize);

// A total degree.
#[derive(Clone, Copy, PartialEq, Eq, PartialOrd, Ord)]
pub struct Degree(pub usize);

// The number of a row, from 0.
#[derive(Clone, Copy, PartialEq, Eq, PartialOrd, Ord)]
pub struct RowNumber(pub usize);

// The exponent at a place of a row, 0 past its end.
fn exponent_or_zero(row: &[u8], place: usize) -> u8
    ensures { result ≡ row.now ! suc place }
{
    row.get(place).copied().unwrap_or(0)
}

impl Row {
    // The row with these exponents. They are read one by one without a loop, since the compiler makes of a loop a call that copies memory, which
    // costs more.
    pub fn of_bytes(bytes: &[u8]) -> Row
        requires { length bytes.now ≤ 6 }
        ensures { result ≡ as_row (length bytes.now) bytes.now }
    {
        let exponents = [
            exponent_or_zero(bytes, 0),
            exponent_or_zero(bytes, 1),
            exponent_or_zero(bytes, 2),
            exponent_or_zero(bytes, 3),
            exponent_or_zero(bytes, 4),
            exponent_or_zero(bytes, 5),
        ];
        Row {
            exponents,
            n: bytes.len(),
        }
    }
}

// Row k of a lent buffer becomes r; the other bytes stay.
#[tactic(auto, unfolding(crate::specs::Rows::put_row))]
pub fn put_row(n: usize, buffer: &mut [u8], k: RowNumber, r: Row)
    requires { (n ≤ 6) × (k.0 * n + n ≤ length buffer.old) }
    ensures { buffer.new ≡ put_row n k.0 r.exponents buffer.old }
{
    let base = k.0 * n;
    buffer[base..base + n].copy_from_slice(&r.exponents[..n]);
}

// The first variable at which u exceeds q, none where u divides q.
fn first_failure(u: Row, q: Row) -> Option<Variable>
    ensures { FirstFailure u.exponents q.exponents result }
{
    for i in 0..6 {
        if u.exponents[i] > q.exponents[i] {
            return Some(Variable(i + 1));
        }
    }
    None
}

// Whether no exponent of u exceeds that of q (rule 1).
pub fn divides(u: Row, q: Row) -> bool
    ensures { result ≡ divides_test u.exponents q.exponents }
{
    first_failure(u, q).is_none()
}

// The row from a place on as a number, its exponents being the digits to base 256. Six bytes are read whatever n is, without a loop, and those
// behind the row are dropped.
fn key_at(n: usize, bytes: &[u8], at: usize) -> usize
    requires { (0 < n) × (n ≤ 6) × (at + 6 ≤ length bytes.now) }
    ensures { result ≡ row_key (take n (drop at bytes.now)) n }
{
    let six = usize::from_be_bytes([
        0,
        0,
        bytes[at],
        bytes[at + 1],
        bytes[at + 2],
        bytes[at + 3],
        bytes[at + 4],
        bytes[at + 5],
    ]);
    six >> (48 - 8 * n)
}

// So many rows from the first on ascend strictly, by their numbers. It stops at the first pair that does not, and where six bytes are no longer
// there: near the table's end.
fn ascending_front(n: usize, bytes: &[u8]) -> usize
    requires { 0 < n }
    ensures { FrontAscends n bytes.now result }
{
    if n > 6 || bytes.len() < 6 {
        return 1;
    }
    let last = bytes.len() - 6;
    let mut before = key_at(n, bytes, 0);
    let mut k = 1;
    let mut at = n;
    while at <= last {
        let key = key_at(n, bytes, at);
        if key <= before {
            return k;
        }
        before = key;
        k += 1;
        at += n;
    }
    k
}

// The largest of some bytes, 0 for none. It looks at each of them and leaves nowhere, so that the compiler can take many at a time.
fn largest_of(bytes: &[u8]) -> u8
    ensures { LargestOf bytes.now result }
{
    let mut largest: u8 = 0;
    for entry in bytes {
        largest = largest.max(*entry);
    }
    largest
}

// The bytes that `has_large_entry` looks at before it asks.
const STRETCH: usize = 256;

// Whether some entry is above 50.
pub fn has_large_entry(bytes: &[u8]) -> bool
    ensures { result ≡ any (λ e. ltb 50 e) bytes.now }
{
    for stretch in bytes.chunks(STRETCH) {
        if LARGEST_ENTRY < largest_of(stretch) {
            return true;
        }
    }
    false
}

// A table as bytes end to end, n to a row. Nothing is known of it until it is checked.
#[derive(Clone, Copy)]
pub struct FlatTable<'a> {
    pub n: usize,
    pub bytes: &'a [u8],
}

impl<'a> FlatTable<'a> {
    // How many rows it has.
    pub fn row_count(self) -> usize
        requires { 0 < self.n }
        ensures { result ≡ length (rows_of self.entry) }
    {
        self.bytes.len() / self.n
    }

    // The bytes of row k: its exponents.
    #[tactic(auto, using(crate::proofs::RowsLaws::row_within, crate::proofs::RowsLaws::rows_at))]
    pub fn row_bytes(self, k: RowNumber) -> &'a [u8]
        requires { k.0 < length (rows_of self) }
        ensures { result.now ≡ row_at (rows_of self.entry) k.0 }
    {
        let base = k.0 * self.n;
        &self.bytes[base..base + self.n]
    }

    // Row k.
    #[tactic(auto, using(crate::proofs::RowsLaws::row_size))]
    pub fn row_at(self, k: RowNumber) -> Row
        requires { (self.n ≤ 6) × (k.0 < length (rows_of self)) }
        ensures { result ≡ as_row self.entry.n (row_at (rows_of self.entry) k.0) }
    {
        Row::of_bytes(self.row_bytes(k))
    }

    // The exponent of row k at variable i.
    #[tactic(auto, using(crate::proofs::RowsLaws::row_within))]
    pub fn exponent(self, k: RowNumber, i: Variable) -> u8
        requires { (k.0 < length (rows_of self)) × (0 < i.0) × (i.0 ≤ self.n) }
        ensures { result ≡ row_at (rows_of self.entry) k.0 ! i.0 }
    {
        self.bytes[k.0 * self.n + (i.0 - 1)]
    }

    // Whether row k precedes the next row.
    #[tactic(auto, using(crate::proofs::RowsLaws::two_rows_within))]
    fn precedes_next(self, k: RowNumber) -> bool
        requires { suc k.0 < length (rows_of self) }
        ensures { result ≡ precedes_test (row_at (rows_of self.entry) k.0) (row_at (rows_of self.entry) (suc k.0)) }
    {
        let base = k.0 * self.n;
        for i in 0..self.n {
            let a = self.bytes[base + i];
            let b = self.bytes[base + self.n + i];
            if a < b {
                return true;
            }
            if b < a {
                return false;
            }
        }
        false
    }

    // Whether the rows ascend strictly. Most are told by their numbers, the last few byte by byte.
    pub fn ascends(self) -> bool
        requires { 0 < self.n }
        ensures { result ≡ ascending_test (rows_of self.entry) }
    {
        for k in ascending_front(self.n, self.bytes)..self.row_count() {
            if !self.precedes_next(RowNumber(k - 1)) {
                return false;
            }
        }
        true
    }

    // The checks 1 to 4.
    pub fn check(self) -> Result<(), Refusal>
        ensures { number_of result ≡ refusal (table_checks self.entry.n self.entry.bytes.now) }
    {
        if self.n == 0 || 6 < self.n {
            return Err(Refusal::Variables);
        }
        if self.bytes.len() % self.n != 0 {
            return Err(Refusal::Length);
        }
        if MOST_ROWS < self.row_count() {
            return Err(Refusal::Rows);
        }
        if has_large_entry(self.bytes) {
            return Err(Refusal::Entry);
        }
        Ok(())
    }
}

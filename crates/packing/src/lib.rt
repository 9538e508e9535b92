// The bundle writer: tables given as row counts and rows end to end, written as one bundle into a lent buffer.
#![tactic(auto)]

ghost use Rattle.std.specs.Prelude.{◌≡◌, false, [], ◌∷◌, ◌+◌, ◌*◌, ◌≤◌, ◌<◌, ltb, length};
ghost use Rattle.checks.specs.Tests.{any};
ghost use Rattle.checks.specs.Outcomes.{number_of};
ghost use Rattle.checks.specs.Refusals.{refusal};
ghost use Rattle.writing.specs.Written.{Wrote};
ghost use Rattle.distinct.specs.EqualRows.{equal_rows_test};
ghost use Rattle.bundle.specs.Format.{low, high, entries_of};
ghost use Rattle.packing.specs.GivenTables.{total_rows, given_tables};
ghost use Rattle.packing.specs.Operation.{shape_checks, write_checks, EntriesFit, WritePromise};

use bundle::{MOST_BYTES, MOST_TABLES};
use checks::Refusal;
use distinct::has_equal_rows;
use terms::{FlatTable, MOST_ROWS, has_large_entry};
use writing::{copy_from, put_byte};

// The sum of the row counts. There are at most 16 of them, each at most 65,535: so it is at most 1,048,560 and cannot overflow.
fn total_rows(counts: &[u16]) -> usize
    requires { length counts.now ≤ 16 }
    ensures { (result ≡ total_rows counts.now) × (result ≤ 16 * 65535) }
{
    counts.iter().map(|count| usize::from(*count)).sum()
}

// Whether some count is above 4,096.
fn has_large_count(counts: &[u16]) -> bool
    ensures { result ≡ any (λ c. ltb 4096 c) counts.now }
{
    counts.iter().any(|count| MOST_ROWS < usize::from(*count))
}

// The checks of n, the counts and the tables' length: 1, 9, 2, 3.
fn check_shape(n: usize, counts: &[u16], tables: &[u8]) -> Result<(), Refusal>
    ensures { number_of result ≡ refusal (shape_checks n counts.now tables.now) }
{
    if n == 0 || 6 < n {
        return Err(Refusal::Variables);
    }
    if counts.len() == 0 || MOST_TABLES < counts.len() {
        return Err(Refusal::Frame);
    }
    if tables.len() != total_rows(counts) * n {
        return Err(Refusal::Length);
    }
    if has_large_count(counts) {
        return Err(Refusal::Rows);
    }
    Ok(())
}

// Whether some table given has equal rows, where n, the counts, the tables' length and the entries passed.
fn some_equal_rows(n: usize, counts: &[u16], tables: &[u8]) -> bool
    requires { (refusal (shape_checks n counts.now tables.now) ≡ 0) × (any (λ e. ltb 50 e) tables.now ≡ false) }
    ensures { result ≡ any equal_rows_test (given_tables n counts.now tables.now) }
{
    let mut left = tables;
    for count in counts {
        let (bytes, behind) = left.split_at(usize::from(*count) * n);
        if has_equal_rows(FlatTable { n, bytes }) {
            return true;
        }
        left = behind;
    }
    false
}

// All checks, for a buffer of so many bytes.
fn check_write(n: usize, counts: &[u16], tables: &[u8], room: usize) -> Result<(), Refusal>
    ensures { number_of result ≡ refusal (write_checks n counts.now tables.now room) }
{
    check_shape(n, counts, tables)?;
    let size = 2 + 4 * counts.len() + tables.len();
    if has_large_entry(tables) {
        return Err(Refusal::Entry);
    }
    if some_equal_rows(n, counts, tables) {
        return Err(Refusal::EqualRows);
    }
    if room < size || MOST_BYTES < size {
        return Err(Refusal::Room);
    }
    Ok(())
}

// Writes a 16-bit number, low byte first, and answers the place behind it.
fn put16(buffer: &mut [u8], at: usize, value: u16) -> usize
    requires { at + 1 < length buffer.old }
    ensures { Wrote buffer.old at (low value ∷ high value ∷ []) result buffer.new }
{
    let [low, high] = value.to_le_bytes();
    let next = put_byte(buffer, at, low);
    put_byte(buffer, next, high)
}

// Writes the header's entries behind its first two bytes: the row count of each table, and the place of its body. Answers the header's end.
fn put_entries(n: usize, counts: &[u16], buffer: &mut [u8]) -> usize
    requires { EntriesFit n counts.now buffer.old }
    ensures { Wrote buffer.old 2 (entries_of n (2 + 4 * length counts.now) counts.now) result buffer.new }
{
    let mut place = 2 + 4 * counts.len();
    let mut at = 2;
    for rows in counts {
        let next = put16(buffer, at, *rows);
        at = put16(buffer, next, place as u16);
        place += usize::from(*rows) * n;
    }
    at
}

// Writes the bundle of the tables to the front of a lent buffer, and answers its length; the bytes behind it stay, and on refusal all do.
#[tactic(auto, using(crate::proofs::CheckLaws::accepting))]
pub fn write_bundle(
    n: usize,
    counts: &[u16],
    tables: &[u8],
    buffer: &mut [u8],
) -> Result<usize, Refusal>
    ensures { WritePromise n counts.now tables.now buffer.old result buffer.new }
{
    check_write(n, counts, tables, buffer.len())?;
    let first = put_byte(buffer, 0, n as u8);
    put_byte(buffer, first, counts.len() as u8);
    let header = put_entries(n, counts, buffer);
    copy_from(buffer, header, tables, 0, tables.len());
    Ok(header + tables.len())
}

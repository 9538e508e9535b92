// The text that the program writes, as bytes in a lent buffer. Each writer puts its text from a place on, leaves every
// other byte as it was, and answers the place behind the text.
#![tactic(auto)]

ghost use Rattle.std.specs.Prelude.{◌≡◌, [], ◌∷◌, ◌++◌, ◌+◌, ◌≤◌, ◌<◌, length, map};
ghost use Rattle.terms.specs.Rows.{rows_of};
ghost use Rattle.checks.specs.Outcomes.{number, number_of};
ghost use Rattle.checks.specs.Refusals.{refusal};
ghost use Rattle.distinct.specs.EqualRows.{distinct_checks};
ghost use Rattle.completion.specs.Completed.{completed};
ghost use Rattle.counts.specs.Counts.{steady_of};
ghost use Rattle.text.specs.Decimal.{decimal, space, line};
ghost use Rattle.writing.specs.Written.{Wrote};
ghost use Rattle.listing.specs.Text.{spaced, table_line, row_line, steady_line, no_room_line, refusal_line, row_lines, whole_text, table_text};
ghost use Rattle.bundle.specs.Checks.{bundle_checks};
ghost use Rattle.listing.specs.Operation.{PartPromise};

use bundle::{check_bundle, locate_checked, part};
use checks::Refusal;
use completing::COMPLETED_SIZE;
use terms::{Degree, FlatTable, MOST_ROWS};
use text::{put_field, put_number};
use writing::put_byte;

// The most bytes of a line: a row's, with six exponents of two digits and marks of two; the first, with a table number of two digits and
// row counts of four; the last, with a degree of three.
const ROW_LINE: usize = 6 * 3 + 1 + 3 + 1;

const FIRST_LINE: usize = 1 + 3 + 5 + 5 + 1;

const LAST_LINE: usize = 1 + 4 + 1;

// The most bytes that the text of a table needs.
pub const TEXT_SIZE: usize = MOST_ROWS * ROW_LINE + FIRST_LINE + LAST_LINE;

// Writes an exponent and one space.
fn put_exponent(out: &mut [u8], at: usize, e: u8) -> usize
    requires { at + length (decimal e ++ (space ∷ [])) ≤ length out.old }
    ensures { Wrote out.old at (decimal e ++ (space ∷ [])) result out.new }
{
    let next = put_number(out, at, usize::from(e));
    put_byte(out, next, b' ')
}

// Writes the exponents of a row, each with one space behind it.
fn put_exponents(out: &mut [u8], at: usize, row: &[u8]) -> usize
    requires { at + length (spaced row.now) ≤ length out.old }
    ensures { Wrote out.old at (spaced row.now) result out.new }
{
    let mut next = at;
    for e in row {
        next = put_exponent(out, next, *e);
    }
    next
}

// Writes the line of a completed row: its exponents, `:` and its marks.
#[tactic(auto, using(crate::proofs::TextLaws::row_line_length))]
fn put_row_line(out: &mut [u8], at: usize, row: &[u8], marks: u8) -> usize
    requires { at + length (row_line row.now marks) ≤ length out.old }
    ensures { Wrote out.old at (row_line row.now marks) result out.new }
{
    let exponents_end = put_exponents(out, at, row);
    let colon_end = put_byte(out, exponents_end, b':');
    let marks_end = put_field(out, colon_end, usize::from(marks));
    put_byte(out, marks_end, b'\n')
}

// Writes the lines of the rows of a table, whose marks stand in their order at the front of `marks`.
fn put_rows(table: FlatTable, marks: &[u8], out: &mut [u8], at: usize) -> usize
    requires { (0 < table.n) × (table.n ≤ 6) × (length (rows_of table) ≤ length marks.now)
        × (at + length (row_lines (rows_of table) marks.now (length (rows_of table))) ≤ length out.old) }
    ensures { Wrote out.old at (row_lines (rows_of table.entry) marks.now (length (rows_of table.entry))) result out.new }
{
    let mut next = at;
    for (row, row_marks) in table.bytes.chunks_exact(table.n).zip(marks) {
        next = put_row_line(out, next, row, *row_marks);
    }
    next
}

// Writes a line of numbers: a letter, each number behind one space, and a line feed.
fn put_numbers_line(out: &mut [u8], at: usize, letter: u8, numbers: &[usize]) -> usize
    requires { at + length (line ((letter ∷ []) ∷ map decimal numbers.now)) ≤ length out.old }
    ensures { Wrote out.old at (line ((letter ∷ []) ∷ map decimal numbers.now)) result out.new }
{
    let mut next = put_byte(out, at, letter);
    for number in numbers {
        next = put_field(out, next, *number);
    }
    put_byte(out, next, b'\n')
}

// Writes the first line of a table: `T`, its number, how many rows were given, and how many the completed table has.
#[tactic(auto, using(crate::proofs::TextLaws::three_numbers_length), unfolding(crate::specs::Text::table_line))]
fn put_table_line(out: &mut [u8], at: usize, j: usize, given: usize, made: usize) -> usize
    requires { at + length (table_line j given made) ≤ length out.old }
    ensures { Wrote out.old at (table_line j given made) result out.new }
{
    put_numbers_line(out, at, b'T', &[j, given, made])
}

// Writes the last line of a table: `S` and the steady degree.
#[tactic(auto, using(crate::proofs::TextLaws::one_number_length), unfolding(crate::specs::Text::steady_line))]
fn put_steady_line(out: &mut [u8], at: usize, steady: Degree) -> usize
    requires { at + length (steady_line steady.0) ≤ length out.old }
    ensures { Wrote out.old at (steady_line steady.0) result out.new }
{
    put_numbers_line(out, at, b'S', &[steady.0])
}

// Writes the only line of a table whose completion is refused for room: `T`, its number, `R` and 8.
#[tactic(auto, using(crate::proofs::TextLaws::no_room_line_length))]
fn put_no_room_line(out: &mut [u8], at: usize, j: usize) -> usize
    requires { at + length (no_room_line j) ≤ length out.old }
    ensures { Wrote out.old at (no_room_line j) result out.new }
{
    let letter_end = put_byte(out, at, b'T');
    let number_end = put_field(out, letter_end, j);
    let space_end = put_byte(out, number_end, b' ');
    let refused_end = put_byte(out, space_end, b'R');
    let eight_end = put_field(out, refused_end, 8);
    put_byte(out, eight_end, b'\n')
}

// Writes the only line of a refused bundle: `R` and the number.
#[tactic(auto, using(crate::proofs::TextLaws::one_number_length), unfolding(crate::specs::Text::refusal_line))]
fn put_refusal_line(out: &mut [u8], at: usize, refusal: Refusal) -> usize
    requires { at + length (refusal_line (number refusal)) ≤ length out.old }
    ensures { Wrote out.old at (refusal_line (number refusal)) result out.new }
{
    put_numbers_line(out, at, b'R', &[usize::from(refusal.number())])
}

// Writes the text of table j from the start, from how many rows were given, its completed table and the marks of that table's rows.
fn put_whole(table: FlatTable, marks: &[u8], given: usize, j: usize, out: &mut [u8]) -> usize
    requires { (0 < table.n) × (table.n ≤ 6) × (length (rows_of table) ≤ length marks.now)
        × (length (whole_text j given (rows_of table) marks.now (steady_of (rows_of table))) ≤ length out.old) }
    ensures { Wrote out.old 0 (whole_text j given (rows_of table.entry) marks.now (steady_of (rows_of table.entry))) result out.new }
{
    let line_end = put_table_line(out, 0, j, given, table.row_count());
    let rows_end = put_rows(table, marks, out, line_end);
    let steady = summing::largest_degree(table);
    put_steady_line(out, rows_end, steady)
}

// Writes the text of table j from the start, from its given rows and its completed table.
fn put_completed(table: FlatTable, given: FlatTable, j: usize, out: &mut [u8]) -> usize
    requires { (0 < table.n) × (table.n ≤ 6) × (given.n ≡ table.n) × (rows_of table ≡ completed table.n (rows_of given)) × (length (rows_of table) ≤ 4096)
        × (length (table_text table.n j (rows_of given)) ≤ length out.old) }
    ensures { Wrote out.old 0 (table_text table.entry.n j (rows_of given.entry)) result out.new }
{
    let mut marks = [0u8; MOST_ROWS];
    marking::mark_ascending(table, &mut marks);
    put_whole(table, &marks, given.row_count(), j, out)
}

// Writes the text of table j from the start, from its given rows: completes them, or says that there is no room.
fn put_table(table: FlatTable, j: usize, out: &mut [u8]) -> usize
    requires { (refusal (distinct_checks table.n table.bytes.now) ≡ 0) × (length (table_text table.n j (rows_of table)) ≤ length out.old) }
    ensures { Wrote out.old 0 (table_text table.entry.n j (rows_of table.entry)) result out.new }
{
    let mut made = [0u8; COMPLETED_SIZE];
    match completing::complete_checked(table, &mut made) {
        Ok(count) => {
            let size = count * table.n;
            let completed = FlatTable {
                n: table.n,
                bytes: &made[..size],
            };
            put_completed(completed, table, j, out)
        }
        Err(_) => put_no_room_line(out, 0, j),
    }
}

// Writes part j of the program's output for a bundle that was checked from the start: the text of table j, and nothing where there is no such
// table; of a refused bundle the line of its refusal in part 0, and nothing in the others.
pub fn part_text_checked(
    bundle: &[u8],
    checked: Result<(), Refusal>,
    j: usize,
    out: &mut [u8; TEXT_SIZE],
) -> usize
    requires { number_of checked ≡ refusal (bundle_checks bundle.now) }
    ensures { PartPromise bundle.now j out.old result out.new }
{
    match locate_checked(bundle, checked, j) {
        Ok(found) => put_table(part(bundle, found), j, out),
        Err(refusal) if j == 0 => put_refusal_line(out, 0, refusal),
        Err(_) => 0,
    }
}

// The same for any bundle: checks it first.
pub fn part_text(bundle: &[u8], j: usize, out: &mut [u8; TEXT_SIZE]) -> usize
    ensures { PartPromise bundle.now j out.old result out.new }
{
    part_text_checked(bundle, check_bundle(bundle), j, out)
}

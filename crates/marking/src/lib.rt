// Marks (rule 2): one byte for each row, at the front of a lent buffer. The rows may stand in any order.
#![tactic(auto)]

pub mod next_row;

ghost use Rattle.std.specs.Prelude.{◌≡◌, ◌≤◌, length};
ghost use Rattle.terms.specs.Rows.{rows_of};
ghost use Rattle.terms.specs.Order.{Ascending};
ghost use Rattle.terms.specs.TableChecks.{TableAccepted};
ghost use Rattle.marking.specs.InOrder.{GivesOrder};
ghost use Rattle.marking.specs.Operation.{Markable, marked, MarksPromise};

use crate::next_row::{marks_by_next, marks_last};
use checks::Refusal;
use distinct::has_equal_neighbours;
use ordering::{list_rows, row_listed};
use terms::{FlatTable, MOST_ROWS, RowNumber};

// The marks of rows in any order, of which `number_at` gives those in ascending order: in one pass from the last, each row's from those of the next.
fn mark_rows<F: Fn(usize) -> RowNumber>(table: FlatTable, number_at: F, buffer: &mut [u8])
    requires { Markable table.n (rows_of table) (length buffer.old) × GivesOrder (rows_of table) (F.pre number_at) (F.post number_at) }
    ensures { buffer.new ≡ marked table.entry.n (rows_of table.entry) buffer.old }
{
    let count = table.row_count();
    if count == 0 {
        return;
    }
    let last = number_at(count - 1);
    let mut next = table.row_at(last);
    let mut marks = marks_last(table.n);
    buffer[last.0] = marks;
    for k in (0..count - 1).rev() {
        let number = number_at(k);
        let row = table.row_at(number);
        marks = marks_by_next(row, next, marks);
        buffer[number.0] = marks;
        next = row;
    }
}

// The marks of ascending rows.
pub fn mark_ascending(table: FlatTable, buffer: &mut [u8])
    requires { Markable table.n (rows_of table) (length buffer.old) × Ascending (rows_of table) }
    ensures { buffer.new ≡ marked table.entry.n (rows_of table.entry) buffer.old }
{
    mark_rows(table, RowNumber, buffer);
}

// The answer for rows that `number_at` gives in ascending order, so that no two are equal: 8 where they are more than the buffer's bytes, or their marks.
fn marks_in_order<F: Fn(usize) -> RowNumber>(
    table: FlatTable,
    number_at: F,
    buffer: &mut [u8],
) -> Result<(), Refusal>
    requires { TableAccepted table.n table.bytes.now × GivesOrder (rows_of table) (F.pre number_at) (F.post number_at) }
    ensures { MarksPromise table.entry.n table.entry.bytes.now buffer.old result buffer.new }
{
    if buffer.len() < table.row_count() {
        return Err(Refusal::Room);
    }
    mark_rows(table, number_at, buffer);
    Ok(())
}

// The answer for rows in any order: they are listed in order, and then 12, 8, or their marks.
fn marks_unordered(table: FlatTable, buffer: &mut [u8]) -> Result<(), Refusal>
    requires { TableAccepted table.n table.bytes.now }
    ensures { MarksPromise table.entry.n table.entry.bytes.now buffer.old result buffer.new }
{
    let mut order = [0u16; MOST_ROWS];
    let mut other = [0u16; MOST_ROWS];
    list_rows(table, &mut order, &mut other);
    if has_equal_neighbours(table, &order) {
        return Err(Refusal::EqualRows);
    }
    marks_in_order(table, |k| row_listed(&order, k), buffer)
}

// The marks of each row, one byte for a row, at the front of the buffer; the bytes behind stay (rule 2).
pub fn marks(table: FlatTable, buffer: &mut [u8]) -> Result<(), Refusal>
    ensures { MarksPromise table.entry.n table.entry.bytes.now buffer.old result buffer.new }
{
    table.check()?;
    if table.ascends() {
        return marks_in_order(table, RowNumber, buffer);
    }
    marks_unordered(table, buffer)
}

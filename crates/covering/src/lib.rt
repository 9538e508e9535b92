// The check whether an ascending table is complete (rule 4): marks, and one descent for each row and variable without a mark.
#![tactic(auto)]

ghost use Rattle.std.specs.Prelude.{◌≡◌, ◌≤◌, ◌<◌};
ghost use Rattle.terms.specs.Monomials.{◌!◌, AtMost, times};
ghost use Rattle.terms.specs.Rows.{rows_of, monomial_of};
ghost use Rattle.division.specs.Checks.{Ready};
ghost use Rattle.division.specs.Janet.{marks_of, covered_test, complete_test};
ghost use Rattle.covering.specs.RowTest.{row_test, Small};

use finding::descend_table;
use marking::next_row::{marks_by_next, marks_last};
use terms::{FlatTable, Row, RowNumber, Variable};

// Whether the row times variable i has a Janet divisor in the table.
fn covered(table: FlatTable, row: Row, i: Variable) -> bool
    requires { Ready table.n (rows_of table) × (row.n ≡ table.n) × (0 < i.0) × (i.0 ≤ table.n) × (row.exponents ! i.0 < 255) }
    ensures { result ≡ covered_test (rows_of table.entry) (times (monomial_of row) i.0 1) }
{
    let mut product = row.exponents;
    product[i.0 - 1] += 1;
    descend_table(table, &product[..table.n]).found.is_ok()
}

// Whether the row, which has these marks, times each variable without a mark has a Janet divisor in the table.
fn row_complete(table: FlatTable, row: Row, marks: u8) -> bool
    requires { Ready table.n (rows_of table) × (row.n ≡ table.n) × AtMost 50 row.exponents
        × (marks ≡ marks_of table.n (rows_of table) (monomial_of row)) }
    ensures { result ≡ row_test table.entry.n (rows_of table.entry) (monomial_of row) }
{
    for i in 0..table.n {
        if (marks >> i) % 2 == 0 && !covered(table, row, Variable(i + 1)) {
            return false;
        }
    }
    true
}

// Whether the table is complete (rule 4). Its last row has every mark; the others are asked from the end, with the marks at hand.
pub fn table_complete(table: FlatTable) -> bool
    requires { Ready table.n (rows_of table) × Small (rows_of table) }
    ensures { result ≡ complete_test table.entry.n (rows_of table.entry) }
{
    let count = table.row_count();
    if count == 0 {
        return true;
    }
    let last = count - 1;
    let mut next = table.row_at(RowNumber(last));
    let mut marks = marks_last(table.n);
    for k in (0..last).rev() {
        let row = table.row_at(RowNumber(k));
        marks = marks_by_next(row, next, marks);
        if !row_complete(table, row, marks) {
            return false;
        }
        next = row;
    }
    true
}

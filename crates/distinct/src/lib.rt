// Whether two rows of a table are equal: the check 12. Rows that ascend are not, and one pass tells; others are listed in order, where equal
// rows are neighbours.
#![tactic(auto)]

ghost use Rattle.std.specs.Prelude.{◌≡◌, ◌≤◌, ◌<◌, length};
ghost use Rattle.checks.specs.Outcomes.{number_of};
ghost use Rattle.checks.specs.Refusals.{refusal};
ghost use Rattle.terms.specs.Monomials.{row_at};
ghost use Rattle.terms.specs.Rows.{rows_of};
ghost use Rattle.terms.specs.TableChecks.{TableAccepted};
ghost use Rattle.ordering.specs.Listing.{Listing};
ghost use Rattle.distinct.specs.EqualRows.{same_test, equal_rows_test, distinct_checks};

use checks::Refusal;
use ordering::{list_rows, row_listed};
use terms::{FlatTable, MOST_ROWS, RowNumber};

// Whether rows r and s are equal. Neighbours of a list differ late, so the last exponent is the first to look at.
fn same_row(table: FlatTable, r: RowNumber, s: RowNumber) -> bool
    requires { (r.0 < length (rows_of table)) × (s.0 < length (rows_of table)) }
    ensures { result ≡ same_test (row_at (rows_of table.entry) r.0) (row_at (rows_of table.entry) s.0) }
{
    let first = table.row_bytes(r);
    let second = table.row_bytes(s);
    first.iter().rev().eq(second.iter().rev())
}

// Whether two neighbours of the list of all rows are equal rows.
pub fn has_equal_neighbours(table: FlatTable, order: &[u16]) -> bool
    requires { (0 < table.n) × (length (rows_of table) ≤ length order.now) × Listing (rows_of table) order.now }
    ensures { result ≡ equal_rows_test (rows_of table.entry) }
{
    (1..table.row_count()).any(|k| same_row(table, row_listed(order, k - 1), row_listed(order, k)))
}

// Up to so many rows are listed in small arrays.
const FEW_ROWS: usize = 100;

// Whether two rows of a table of at most so many rows are equal, by a list of all rows.
fn has_equal_within<const ROOM: usize>(table: FlatTable) -> bool
    requires { TableAccepted table.n table.bytes.now × (length (rows_of table) ≤ ROOM) × (ROOM ≤ 4096) }
    ensures { result ≡ equal_rows_test (rows_of table.entry) }
{
    let mut order = [0; ROOM];
    let mut other = [0; ROOM];
    list_rows(table, &mut order, &mut other);
    has_equal_neighbours(table, &order)
}

// Whether two rows of a table are equal. A small table does not pay for the clearing of large arrays.
#[tactic(auto, using(crate::proofs::EqualLaws::ascends_none))]
pub fn has_equal_rows(table: FlatTable) -> bool
    requires { TableAccepted table.n table.bytes.now }
    ensures { result ≡ equal_rows_test (rows_of table.entry) }
{
    if table.ascends() {
        return false;
    }
    if table.row_count() <= FEW_ROWS {
        return has_equal_within::<FEW_ROWS>(table);
    }
    has_equal_within::<MOST_ROWS>(table)
}

// The checks 1 to 4 and 12.
pub fn check_distinct(table: FlatTable) -> Result<(), Refusal>
    ensures { number_of result ≡ refusal (distinct_checks table.entry.n table.entry.bytes.now) }
{
    table.check()?;
    if has_equal_rows(table) {
        return Err(Refusal::EqualRows);
    }
    Ok(())
}

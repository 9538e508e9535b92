// Inside (rule 1): the first given row that divides a query.
#![tactic(auto)]

ghost use Rattle.std.specs.Prelude.{◌≡◌, ◌≤◌, ◌<◌, length};
ghost use Rattle.terms.specs.Monomials.{row_at};
ghost use Rattle.terms.specs.Rows.{rows_of};
ghost use Rattle.terms.specs.Ideal.{divides_test};
ghost use Rattle.checks.specs.Outcomes.{number_of};
ghost use Rattle.checks.specs.Refusals.{refusal};
ghost use Rattle.division.specs.Scan.{found_row};
ghost use Rattle.inside.specs.FirstDividing.{first_dividing};
ghost use Rattle.inside.specs.Operation.{inside_checks, InsidePromise};

use checks::Refusal;
use distinct::check_distinct;
use terms::{FlatTable, Row, RowNumber, divides};

// Whether row k divides the query (rule 1).
fn row_divides(table: FlatTable, k: RowNumber, query: Row) -> bool
    requires { (table.n ≤ 6) × (k.0 < length (rows_of table)) }
    ensures { result ≡ divides_test (row_at (rows_of table.entry) k.0) query.exponents }
{
    divides(table.row_at(k), query)
}

// The first row that divides the query, or none, without the checks.
fn first_dividing(table: FlatTable, query: Row) -> Option<RowNumber>
    requires { (0 < table.n) × (table.n ≤ 6) }
    ensures { result ≡ found_row (first_dividing (rows_of table.entry) query.exponents) }
{
    (0..table.row_count())
        .map(RowNumber)
        .find(|k| row_divides(table, *k, query))
}

// Inside's checks.
fn check_inside(table: FlatTable, query: &[u8]) -> Result<(), Refusal>
    ensures { number_of result ≡ refusal (inside_checks table.entry.n table.entry.bytes.now query.now) }
{
    check_distinct(table)?;
    if query.len() != table.n {
        return Err(Refusal::Argument);
    }
    Ok(())
}

// The first given row that divides the query, or none (rule 1).
pub fn inside(table: FlatTable, query: &[u8]) -> Result<Option<RowNumber>, Refusal>
    ensures { InsidePromise table.entry.n table.entry.bytes.now query.now result }
{
    check_inside(table, query)?;
    Ok(first_dividing(table, Row::of_bytes(query)))
}

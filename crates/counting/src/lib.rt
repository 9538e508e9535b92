// Counts above the division (rules 7 to 9): count, polynomial and steady of a complete table.
#![tactic(auto)]

ghost use Rattle.std.specs.Prelude.{◌≡◌, IfOk};
ghost use Rattle.checks.specs.Outcomes.{number_of};
ghost use Rattle.checks.specs.Refusals.{refusal};
ghost use Rattle.terms.specs.TableChecks.{TableAccepted};
ghost use Rattle.summing.specs.Sums.{Marked};
ghost use Rattle.counting.specs.Operations.{countable_checks, count_checks, steady_checks, CountPromise, PolynomialPromise, SteadyPromise};

use checks::Refusal;
use covering::table_complete;
use marking::mark_ascending;
use summing::{count_sum, largest_degree, polynomial_sum};
use terms::{Degree, FlatTable, MOST_ROWS};

// The largest degree that is counted.
const LARGEST_DEGREE: usize = 300;

// The checks 6 and 7.
fn check_countable(table: FlatTable) -> Result<(), Refusal>
    requires { TableAccepted table.n table.bytes.now }
    ensures { number_of result ≡ refusal (countable_checks table.entry.n table.entry.bytes.now) }
{
    if !table.ascends() {
        return Err(Refusal::Order);
    }
    if !table_complete(table) {
        return Err(Refusal::Incomplete);
    }
    Ok(())
}

// The checks of count and polynomial.
fn check_count(table: FlatTable, s: Degree) -> Result<(), Refusal>
    ensures { number_of result ≡ refusal (count_checks table.entry.n table.entry.bytes.now s.0) }
{
    table.check()?;
    if LARGEST_DEGREE < s.0 {
        return Err(Refusal::Argument);
    }
    check_countable(table)
}

// The checks of steady.
fn check_steady(table: FlatTable) -> Result<(), Refusal>
    ensures { number_of result ≡ refusal (steady_checks table.entry.n table.entry.bytes.now) }
{
    table.check()?;
    check_countable(table)
}

// The marks of a table that the checks of count and polynomial let pass at s.
fn checked_marks(table: FlatTable, s: Degree) -> Result<[u8; MOST_ROWS], Refusal>
    ensures number { number_of result ≡ refusal (count_checks table.entry.n table.entry.bytes.now s.0) }
    ensures marks { IfOk result (λ marks. Marked table.entry.n table.entry.bytes.now marks) }
{
    check_count(table, s)?;
    let mut marks = [0; MOST_ROWS];
    mark_ascending(table, &mut marks);
    Ok(marks)
}

// The number of monomials of degree at most s outside the ideal of a complete table (rule 7).
pub fn count(table: FlatTable, s: Degree) -> Result<u64, Refusal>
    ensures { CountPromise table.entry.n table.entry.bytes.now s.0 result }
{
    let marks = checked_marks(table, s)?;
    Ok(count_sum(table, &marks, s))
}

// The polynomial of a complete table at s (rule 8).
pub fn polynomial(table: FlatTable, s: Degree) -> Result<i64, Refusal>
    ensures { PolynomialPromise table.entry.n table.entry.bytes.now s.0 result }
{
    let marks = checked_marks(table, s)?;
    Ok(polynomial_sum(table, &marks, s))
}

// The steady degree of a complete table (rule 9).
pub fn steady(table: FlatTable) -> Result<Degree, Refusal>
    ensures { SteadyPromise table.entry.n table.entry.bytes.now result }
{
    check_steady(table)?;
    Ok(largest_degree(table))
}

// The descent (rule 6) over ascending rows. A group is a range of rows; stepping along one variable calls for the next
// variable, which calls for stepping again.
#![tactic(auto)]

pub mod search;

ghost use Rattle.std.specs.Prelude.{◌≡◌, suc, ◌+◌, ◌-◌, ◌≤◌, ◌<◌, length};
ghost use Rattle.terms.specs.Monomials.{◌!◌, row_at};
ghost use Rattle.terms.specs.Rows.{rows_of};
ghost use Rattle.checks.specs.Outcomes.{number_of};
ghost use Rattle.checks.specs.Refusals.{refusal};
ghost use Rattle.division.specs.Descent.{descent};
ghost use Rattle.finding.specs.Operation.{find_checks, FindPromise};
ghost use Rattle.division.specs.Ranges.{with_steps, descend_from};
ghost use Rattle.finding.specs.Stepping.{AtLastRun, Reached, descended};
ghost use Rattle.division.specs.Checks.{Ready};

use crate::search::{Range, larger_from};
use checks::Refusal;
use terms::{FlatTable, RowNumber, Variable};

// What a descent gives: the row that it found, or the variable at which it ended with nothing; and the number of exponents stepped on.
#[derive(Clone, Copy)]
pub struct Descended {
    pub found: Result<RowNumber, Variable>,
    pub steps: usize,
}

// Where a descent is: at variable i, in a group of rows, with so many exponents stepped on before.
#[derive(Clone, Copy)]
struct Position {
    i: Variable,
    group: Range,
    steps: usize,
}

// Steps along the exponents of the group at variable i that do not exceed the query's, of which there is one. It ends at the rows that have the last
// exponent stepped on, with the exponents stepped on before it. Each search starts where the rows of the exponent would end if they were as many as
// those of the one before.
fn along(table: FlatTable, query: &[u8], at: Position) -> Position
    requires { (at.i.0 ≤ table.n) × Reached table.n (rows_of table) query.now at.i.0 at.group.low.0 at.group.high.0 at.steps
        × (row_at (rows_of table) at.group.low.0 ! at.i.0 ≤ query.now ! at.i.0) }
    ensures { AtLastRun table.entry.n (rows_of table.entry) query.now at.i.0 at.group.low.0 at.group.high.0 at.steps
        result.group.low.0 result.group.high.0 result.steps × (result.i.0 ≡ at.i.0) }
{
    let most = query[at.i.0 - 1];
    let end = at.group.high;
    let mut low = at.group.low;
    let mut steps = at.steps;
    let mut high = larger_from(table, at.i, at.group, 1);
    while high < end {
        if most < table.exponent(high, at.i) {
            break;
        }
        let near = high.0 - low.0;
        low = high;
        steps += 1;
        high = larger_from(table, at.i, Range { low, high: end }, near);
    }
    Position {
        i: at.i,
        group: Range { low, high },
        steps,
    }
}

// Steps along variable i, and calls for the next variable where the last exponent stepped on is the query's or the group's largest.
#[cycle(descend_step)]
fn step(table: FlatTable, query: &[u8], at: Position) -> Descended
    requires { (at.i.0 ≤ table.n) × Reached table.n (rows_of table) query.now at.i.0 at.group.low.0 at.group.high.0 at.steps }
    ensures { result ≡ descended (with_steps at.steps
        (descend_from table.entry.n (rows_of table.entry) query.now at.i.0 at.group.low.0 at.group.high.0)) }
{
    let most = query[at.i.0 - 1];
    if most < table.exponent(at.group.low, at.i) {
        return Descended {
            found: Err(at.i),
            steps: at.steps,
        };
    }
    let last = along(table, query, at);
    let steps = last.steps + 1;
    if last.group.high < at.group.high {
        if table.exponent(last.group.low, at.i) < most {
            return Descended {
                found: Err(at.i),
                steps,
            };
        }
    }
    let next = Position {
        i: Variable(at.i.0 + 1),
        group: last.group,
        steps,
    };
    descend(table, query, next)
}

// Takes variable i, or finds the row that is left after the last.
#[cycle(descend_step)]
fn descend(table: FlatTable, query: &[u8], at: Position) -> Descended
    requires { (at.i.0 ≤ suc table.n) × Reached table.n (rows_of table) query.now at.i.0 at.group.low.0 at.group.high.0 at.steps }
    ensures { result ≡ descended (with_steps at.steps
        (descend_from table.entry.n (rows_of table.entry) query.now at.i.0 at.group.low.0 at.group.high.0)) }
{
    if table.n < at.i.0 {
        return Descended {
            found: Ok(at.group.low),
            steps: at.steps,
        };
    }
    step(table, query, at)
}

// The descent for the query in the whole table, without the checks (rule 6).
pub fn descend_table(table: FlatTable, query: &[u8]) -> Descended
    requires { Ready table.n (rows_of table) × (length query.now ≡ table.n) }
    ensures { result ≡ descended (descent table.entry.n (rows_of table.entry) query.now) }
{
    let count = table.row_count();
    if count == 0 {
        return Descended {
            found: Err(Variable(1)),
            steps: 0,
        };
    }
    let whole = Position {
        i: Variable(1),
        group: Range {
            low: RowNumber(0),
            high: RowNumber(count),
        },
        steps: 0,
    };
    descend(table, query, whole)
}

// What `find` answers: the row number of the query's Janet divisor, if there is one, and the number of exponents stepped on.
#[derive(Clone, Copy)]
pub struct Finding {
    pub row: Option<RowNumber>,
    pub steps: usize,
}

// Find's checks.
fn check_find(table: FlatTable, query: &[u8]) -> Result<(), Refusal>
    ensures { number_of result ≡ refusal (find_checks table.entry.n table.entry.bytes.now query.now) }
{
    table.check()?;
    if query.len() != table.n {
        return Err(Refusal::Argument);
    }
    if !table.ascends() {
        return Err(Refusal::Order);
    }
    Ok(())
}

// The row number of the query's Janet divisor in the table, or none, with the number of exponents stepped on (rule 6).
pub fn find(table: FlatTable, query: &[u8]) -> Result<Finding, Refusal>
    ensures { FindPromise table.entry.n table.entry.bytes.now query.now result }
{
    check_find(table, query)?;
    let descent = descend_table(table, query);
    Ok(Finding {
        row: descent.found.ok(),
        steps: descent.steps,
    })
}

// The completed table of a table (rule 5), by slices of the first variable: the operation `complete`.
#![tactic(auto)]

ghost use Rattle.std.specs.Prelude.{◌≡◌, ◌≤◌, length};
ghost use Rattle.checks.specs.Refusals.{refusal};
ghost use Rattle.terms.specs.Rows.{rows_of};
ghost use Rattle.terms.specs.TableChecks.{TableAccepted};
ghost use Rattle.distinct.specs.EqualRows.{distinct_checks};
ghost use Rattle.completing.specs.Collect.{Collected};
ghost use Rattle.completing.specs.Operation.{CompletePromise};

use checks::Refusal;
use distinct::check_distinct;
use slicing::append_completed;
use terms::{FlatTable, MOST_ROWS, Row};

// The bytes that a row takes in the working array with its tails, one variable after the other.
const ROW_SPACE: usize = 6 + 5 + 4 + 3 + 2 + 1;

// The links of a row in its chains: one at each variable but the last.
const ROW_LINKS: usize = 5;

// Up to so many rows a table is completed in a small working array.
const FEW_ROWS: usize = 100;

// The bytes of the most completed rows.
pub const COMPLETED_SIZE: usize = MOST_ROWS * 6;

// The completed table of a table of at most ROWS rows at the front of out; how many rows, None where they do not fit.
fn collect_in<const ROWS: usize>(table: FlatTable, out: &mut [u8]) -> Option<usize>
    requires { TableAccepted table.n table.bytes.now × (length (rows_of table) ≤ ROWS) × (ROWS ≤ 4096) }
    ensures { Collected table.entry.n table.entry.bytes.now out.old result out.new }
{
    let mut work = [[0u8; ROW_SPACE]; ROWS];
    let mut next = [[0u16; ROW_LINKS]; ROWS];
    let work = work.as_flattened_mut();
    let next = next.as_flattened_mut();
    work[..table.bytes.len()].copy_from_slice(table.bytes);
    let prefix = Row {
        exponents: [0; 6],
        n: table.n,
    };
    let rows = table.row_count();
    append_completed(work, next, rows, table.n - 1, prefix, out, 0)
}

// The same. A small table does not pay for the clearing of a large array.
fn collect(table: FlatTable, out: &mut [u8]) -> Option<usize>
    requires { TableAccepted table.n table.bytes.now }
    ensures { Collected table.entry.n table.entry.bytes.now out.old result out.new }
{
    if table.row_count() <= FEW_ROWS {
        return collect_in::<FEW_ROWS>(table, out);
    }
    collect_in::<MOST_ROWS>(table, out)
}

// Writes the completed table of a table that the checks 1 to 4 and 12 let pass to the front of a lent buffer, or refuses it for room.
pub fn complete_checked(table: FlatTable, buffer: &mut [u8]) -> Result<usize, Refusal>
    requires { refusal (distinct_checks table.n table.bytes.now) ≡ 0 }
    ensures { CompletePromise table.entry.n table.entry.bytes.now buffer.old result buffer.new }
{
    let mut completed = [0u8; COMPLETED_SIZE];
    let room = buffer.len().min(MOST_ROWS * table.n);
    let out = &mut completed[..room];
    let Some(count) = collect(table, out) else {
        return Err(Refusal::Room);
    };
    let size = count * table.n;
    buffer[..size].copy_from_slice(&out[..size]);
    Ok(count)
}

// Writes the completed table of a table to the front of a lent buffer; the bytes behind it stay, and on refusal all do.
pub fn complete(table: FlatTable, buffer: &mut [u8]) -> Result<usize, Refusal>
    ensures { CompletePromise table.entry.n table.entry.bytes.now buffer.old result buffer.new }
{
    check_distinct(table)?;
    complete_checked(table, buffer)
}

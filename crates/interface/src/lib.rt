// The operations for programs in C and Rust: each returns the number of its refusal, 0 for an answer. Numbers handed out
// through a reference are answers, and become 0 on a refusal; lent buffers keep their bytes then. include/rocaplanh.h has the
// declarations.
#![tactic(auto)]

ghost use Rattle.std.specs.Prelude.{◌≡◌, ◌<◌, IfSome};
ghost use Rattle.checks.specs.Outcomes.{number_of};
ghost use Rattle.interface.specs.Exports.{MarksExport, InsideExport, CompleteExport, FindExport, CountExport, PolynomialExport, SteadyExport};
ghost use Rattle.interface.specs.Exports.{OpenExport, WriteExport, row_number};

use bundle::locate;
use checks::Refusal;
use completing::complete;
use counting::{count, polynomial, steady};
use finding::find;
use inside::inside;
use marking::marks;
use packing::write_bundle;
use terms::{Degree, FlatTable, RowNumber};

// What stands for 'no row'.
const NO_ROW: u32 = 65535;

// The number that a function returns: that of its refusal, 0 for an answer.
fn status<T>(answer: &Result<T, Refusal>) -> u32
    ensures { result ≡ number_of answer.now }
{
    match answer {
        Ok(_) => 0,
        Err(refusal) => u32::from(refusal.number()),
    }
}

// A row number as it is handed out.
fn row_out(found: Option<RowNumber>) -> u32
    requires { IfSome found (λ r. r.0 < 4096) }
    ensures { result ≡ row_number found }
{
    match found {
        Some(row) => row.0 as u32,
        None => NO_ROW,
    }
}

// The marks of each row, a byte a row at the front of the lent buffer.
pub fn rocaplanh_marks(n: usize, table: &[u8], buffer: &mut [u8]) -> u32
    ensures { MarksExport n table.now buffer.old result buffer.new }
{
    status(&marks(FlatTable { n, bytes: table }, buffer))
}

// The first given row that divides the query, 65,535 for none.
pub fn rocaplanh_inside(n: usize, table: &[u8], query: &[u8], row: &mut u32) -> u32
    ensures { InsideExport n table.now query.now result row.new }
{
    let answer = inside(FlatTable { n, bytes: table }, query);
    *row = match answer {
        Ok(found) => row_out(found),
        Err(_) => 0,
    };
    status(&answer)
}

// The completed table at the front of the lent buffer, and the number of its rows.
pub fn rocaplanh_complete(n: usize, table: &[u8], buffer: &mut [u8], count: &mut u32) -> u32
    ensures { CompleteExport n table.now buffer.old result count.new buffer.new }
{
    let answer = complete(FlatTable { n, bytes: table }, buffer);
    *count = answer.unwrap_or(0) as u32;
    status(&answer)
}

// The row number of the query's Janet divisor, 65,535 for none, and the number of exponents stepped on.
pub fn rocaplanh_find(n: usize, table: &[u8], query: &[u8], row: &mut u32, steps: &mut u32) -> u32
    ensures { FindExport n table.now query.now result row.new steps.new }
{
    let answer = find(FlatTable { n, bytes: table }, query);
    (*row, *steps) = match answer {
        Ok(finding) => (row_out(finding.row), finding.steps as u32),
        Err(_) => (0, 0),
    };
    status(&answer)
}

// The number of monomials up to a degree outside the ideal of a complete table.
pub fn rocaplanh_count(n: usize, table: &[u8], degree: u32, value: &mut u64) -> u32
    ensures { CountExport n table.now degree result value.new }
{
    let answer = count(FlatTable { n, bytes: table }, Degree(degree as usize));
    *value = answer.unwrap_or(0);
    status(&answer)
}

// The polynomial of a complete table at a degree.
pub fn rocaplanh_polynomial(n: usize, table: &[u8], degree: u32, value: &mut i64) -> u32
    ensures { PolynomialExport n table.now degree result value.new }
{
    let answer = polynomial(FlatTable { n, bytes: table }, Degree(degree as usize));
    *value = answer.unwrap_or(0);
    status(&answer)
}

// The steady degree of a complete table.
pub fn rocaplanh_steady(n: usize, table: &[u8], degree: &mut u32) -> u32
    ensures { SteadyExport n table.now result degree.new }
{
    let answer = steady(FlatTable { n, bytes: table });
    *degree = answer.unwrap_or(Degree(0)).0 as u32;
    status(&answer)
}

// Table j of a bundle: its n, its row count, and the offset at which its body begins in the bundle.
pub fn rocaplanh_open(
    bundle: &[u8],
    table: usize,
    n: &mut u32,
    rows: &mut u32,
    offset: &mut u32,
) -> u32
    ensures { OpenExport bundle.now table result n.new rows.new offset.new }
{
    let answer = locate(bundle, table);
    (*n, *rows, *offset) = match answer {
        Ok(found) => (found.n as u32, found.rows as u32, found.place as u32),
        Err(_) => (0, 0, 0),
    };
    status(&answer)
}

// The bundle of tables, given by their row counts and their rows end to end, at the front of the lent buffer, and its length.
pub fn rocaplanh_write(
    n: usize,
    counts: &[u16],
    tables: &[u8],
    buffer: &mut [u8],
    length: &mut u32,
) -> u32
    ensures { WriteExport n counts.now tables.now buffer.old result length.new buffer.new }
{
    let answer = write_bundle(n, counts, tables, buffer);
    *length = answer.unwrap_or(0) as u32;
    status(&answer)
}

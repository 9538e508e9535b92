// The exports of `interface` for programs in C and Rust: each calls the function of its name and promises the same.
// include/rocaplanh.h has the declarations.
#![tactic(auto)]

ghost use Rattle.interface.specs.Exports.{MarksExport, InsideExport, CompleteExport, FindExport, CountExport, PolynomialExport, SteadyExport};
ghost use Rattle.interface.specs.Exports.{OpenExport, WriteExport};

// The marks of each row, a byte a row at the front of the lent buffer.
#[unsafe(no_mangle)]
pub extern "C" fn rocaplanh_marks(n: usize, table: &[u8], buffer: &mut [u8]) -> u32
    ensures { MarksExport n table.now buffer.old result buffer.new }
{
    interface::rocaplanh_marks(n, table, buffer)
}

// The first given row that divides the query, 65,535 for none.
#[unsafe(no_mangle)]
pub extern "C" fn rocaplanh_inside(n: usize, table: &[u8], query: &[u8], row: &mut u32) -> u32
    ensures { InsideExport n table.now query.now result row.new }
{
    interface::rocaplanh_inside(n, table, query, row)
}

// The completed table at the front of the lent buffer, and the number of its rows.
#[unsafe(no_mangle)]
pub extern "C" fn rocaplanh_complete(
    n: usize,
    table: &[u8],
    buffer: &mut [u8],
    count: &mut u32,
) -> u32
    ensures { CompleteExport n table.now buffer.old result count.new buffer.new }
{
    interface::rocaplanh_complete(n, table, buffer, count)
}

// The row number of the query's Janet divisor, 65,535 for none, and the number of exponents stepped on.
#[unsafe(no_mangle)]
pub extern "C" fn rocaplanh_find(
    n: usize,
    table: &[u8],
    query: &[u8],
    row: &mut u32,
    steps: &mut u32,
) -> u32
    ensures { FindExport n table.now query.now result row.new steps.new }
{
    interface::rocaplanh_find(n, table, query, row, steps)
}

// The number of monomials up to a degree outside the ideal of a complete table.
#[unsafe(no_mangle)]
pub extern "C" fn rocaplanh_count(n: usize, table: &[u8], degree: u32, value: &mut u64) -> u32
    ensures { CountExport n table.now degree result value.new }
{
    interface::rocaplanh_count(n, table, degree, value)
}

// The polynomial of a complete table at a degree.
#[unsafe(no_mangle)]
pub extern "C" fn rocaplanh_polynomial(n: usize, table: &[u8], degree: u32, value: &mut i64) -> u32
    ensures { PolynomialExport n table.now degree result value.new }
{
    interface::rocaplanh_polynomial(n, table, degree, value)
}

// The steady degree of a complete table.
#[unsafe(no_mangle)]
pub extern "C" fn rocaplanh_steady(n: usize, table: &[u8], degree: &mut u32) -> u32
    ensures { SteadyExport n table.now result degree.new }
{
    interface::rocaplanh_steady(n, table, degree)
}

// Table j of a bundle: its n, its row count, and the offset at which its body begins in the bundle.
#[unsafe(no_mangle)]
pub extern "C" fn rocaplanh_open(
    bundle: &[u8],
    table: usize,
    n: &mut u32,
    rows: &mut u32,
    offset: &mut u32,
) -> u32
    ensures { OpenExport bundle.now table result n.new rows.new offset.new }
{
    interface::rocaplanh_open(bundle, table, n, rows, offset)
}

// The bundle of tables, given by their row counts and their rows end to end, at the front of the lent buffer, and its length.
#[unsafe(no_mangle)]
pub extern "C" fn rocaplanh_write(
    n: usize,
    counts: &[u16],
    tables: &[u8],
    buffer: &mut [u8],
    length: &mut u32,
) -> u32
    ensures { WriteExport n counts.now tables.now buffer.old result length.new buffer.new }
{
    interface::rocaplanh_write(n, counts, tables, buffer, length)
}

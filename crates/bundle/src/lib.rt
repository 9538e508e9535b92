// The bundle reader: which table a number names, where its bytes stand, and which check refuses.
#![tactic(auto)]

ghost use Rattle.std.specs.Prelude.{◌≡◌, ◌++◌, ◌+◌, ◌*◌, ◌≤◌, ◌<◌, length};
ghost use Rattle.checks.specs.Outcomes.{number_of};
ghost use Rattle.checks.specs.Refusals.{refusal};
ghost use Rattle.distinct.specs.EqualRows.{equal_rows_test};
ghost use Rattle.bundle.specs.Format.{number16, table_count, place_of, table_of};
ghost use Rattle.bundle.specs.Checks.{LargeEntry, equal_rows_in_test};
ghost use Rattle.bundle.specs.Checks.{frame_checks, table_checks_of, tables_checks, remain_checks, layout_checks, bundle_checks};
ghost use Rattle.bundle.specs.Operation.{Entered, LocatePromise, FoundWithin, PartOf, OpenPromise};

use checks::Refusal;
use terms::FlatTable;

// The most bytes of a bundle, and the most tables.
pub const MOST_BYTES: usize = 65535;

pub const MOST_TABLES: usize = 16;

// Where a table stands: its n, its row count and the place where its bytes begin.
#[derive(Clone, Copy)]
pub struct Located {
    pub n: usize,
    pub rows: usize,
    pub place: usize,
}

// The 16-bit number at i, low byte first.
fn read16(bundle: &[u8], i: usize) -> usize
    requires { i + 1 < length bundle.now }
    ensures { (result ≡ number16 bundle.now i) × (result < 65536) }
{
    usize::from(u16::from_le_bytes([bundle[i], bundle[i + 1]]))
}

// Where table j stands, as the header says.
fn read_entry(bundle: &[u8], j: usize) -> Located
    requires { 5 + 4 * j < length bundle.now }
    ensures { Entered bundle.now j result × (result.rows < 65536) }
{
    Located {
        n: usize::from(bundle[0]),
        rows: read16(bundle, 2 + 4 * j),
        place: read16(bundle, 4 + 4 * j),
    }
}

// The checks of the frame: 9, then 1.
fn check_frame(bundle: &[u8]) -> Result<(), Refusal>
    ensures { number_of result ≡ refusal (frame_checks bundle.now) }
{
    let size = bundle.len();
    if size < 2 || MOST_BYTES < size {
        return Err(Refusal::Frame);
    }
    let n = bundle[0];
    let tables = usize::from(bundle[1]);
    if tables == 0 || MOST_TABLES < tables {
        return Err(Refusal::Frame);
    }
    if size < 2 + 4 * tables {
        return Err(Refusal::Frame);
    }
    if n == 0 || 6 < n {
        return Err(Refusal::Variables);
    }
    Ok(())
}

// The checks of table j, whose body must begin at the place: 3, 10, 11.
#[tactic(auto, using(crate::proofs::CheckLaws::framing))]
fn check_one_table(bundle: &[u8], j: usize, place: usize) -> Result<(), Refusal>
    requires { (refusal (frame_checks bundle.now) ≡ 0) × (j < table_count bundle.now) × (place ≡ place_of bundle.now j) × (place ≤ 65535) }
    ensures { number_of result ≡ refusal (table_checks_of bundle.now j) }
{
    let entry = read_entry(bundle, j);
    if terms::MOST_ROWS < entry.rows {
        return Err(Refusal::Rows);
    }
    if entry.place != place {
        return Err(Refusal::Place);
    }
    if bundle.len() < place + entry.rows * entry.n {
        return Err(Refusal::End);
    }
    Ok(())
}

// The checks of each table in turn, then that no bytes remain (11).
#[tactic(auto, using(crate::proofs::CheckLaws::framing))]
fn check_tables(bundle: &[u8]) -> Result<(), Refusal>
    requires { refusal (frame_checks bundle.now) ≡ 0 }
    ensures { number_of result ≡ refusal (tables_checks bundle.now 0 (table_count bundle.now) ++ remain_checks bundle.now) }
{
    let tables = usize::from(bundle[1]);
    let mut place = 2 + 4 * tables;
    for j in 0..tables {
        check_one_table(bundle, j, place)?;
        let entry = read_entry(bundle, j);
        place += entry.rows * entry.n;
    }
    if place < bundle.len() {
        return Err(Refusal::End);
    }
    Ok(())
}

// The checks of the bundle's layout: 9, 1, those of each table, bytes that remain.
fn check_layout(bundle: &[u8]) -> Result<(), Refusal>
    ensures { number_of result ≡ refusal (layout_checks bundle.now) }
{
    check_frame(bundle)?;
    check_tables(bundle)
}

// Whether table j of a bundle whose layout and entries passed has equal rows.
#[tactic(auto, using(crate::proofs::AcceptedLaws::laying))]
fn table_has_equal_rows(bundle: &[u8], j: usize) -> bool
    requires { (refusal (layout_checks bundle.now) ≡ 0) × (LargeEntry bundle.now → ⊥) × (j < table_count bundle.now) }
    ensures { result ≡ equal_rows_test (table_of bundle.now j) }
{
    let found = read_entry(bundle, j);
    distinct::has_equal_rows(part(bundle, found))
}

// Whether some table of such a bundle has.
#[tactic(auto, using(crate::proofs::AcceptedLaws::laying))]
fn some_equal_rows(bundle: &[u8]) -> bool
    requires { (refusal (layout_checks bundle.now) ≡ 0) × (LargeEntry bundle.now → ⊥) }
    ensures { result ≡ equal_rows_in_test bundle.now }
{
    let tables = usize::from(bundle[1]);
    (0..tables).any(|j| table_has_equal_rows(bundle, j))
}

// The first check that refuses the bundle, whichever table is asked for.
#[tactic(auto, using(crate::proofs::AcceptedLaws::laying))]
pub fn check_bundle(bundle: &[u8]) -> Result<(), Refusal>
    ensures { number_of result ≡ refusal (bundle_checks bundle.now) }
{
    check_layout(bundle)?;
    let start = 2 + 4 * usize::from(bundle[1]);
    if terms::has_large_entry(&bundle[start..]) {
        return Err(Refusal::Entry);
    }
    if some_equal_rows(bundle) {
        return Err(Refusal::EqualRows);
    }
    Ok(())
}

// Where table j of a bundle stands, which was checked.
#[tactic(auto, using(crate::proofs::AcceptedLaws::accepting))]
pub fn locate_checked(
    bundle: &[u8],
    checked: Result<(), Refusal>,
    j: usize,
) -> Result<Located, Refusal>
    requires { number_of checked ≡ refusal (bundle_checks bundle.now) }
    ensures { LocatePromise bundle.now j result }
{
    checked?;
    if usize::from(bundle[1]) <= j {
        return Err(Refusal::Argument);
    }
    Ok(read_entry(bundle, j))
}

// Where table j stands.
pub fn locate(bundle: &[u8], j: usize) -> Result<Located, Refusal>
    ensures { LocatePromise bundle.now j result }
{
    locate_checked(bundle, check_bundle(bundle), j)
}

// The part of a bundle that a found table is, as a table.
pub fn part<'a>(bundle: &'a [u8], found: Located) -> FlatTable<'a>
    requires { FoundWithin bundle.now found }
    ensures { (result.n ≡ found.n) × PartOf bundle.entry found.place (found.rows * found.n) result.bytes }
{
    let end = found.place + found.rows * found.n;
    FlatTable {
        n: found.n,
        bytes: &bundle[found.place..end],
    }
}

// A table shown: the part of the lent bundle that it is, with its n and its row count beside it.
#[derive(Clone, Copy)]
pub struct OpenedTable<'a> {
    pub bytes: &'a [u8],
    pub n: usize,
    pub rows: usize,
}

// Opens table j of a bundle.
pub fn open_table<'a>(bundle: &'a [u8], j: usize) -> Result<OpenedTable<'a>, Refusal>
    ensures { OpenPromise bundle.entry j result }
{
    let found = locate(bundle, j)?;
    Ok(OpenedTable {
        bytes: part(bundle, found).bytes,
        n: found.n,
        rows: found.rows,
    })
}

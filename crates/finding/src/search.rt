// The search for the next exponent of a group: rows ascend, so the exponents of a group at a variable do.
ghost use Rattle.std.specs.Prelude.{ℕ, ◌-◌, ◌≤◌, ◌<◌};
ghost use Rattle.terms.specs.Rows.{rows_of};
ghost use Rattle.terms.specs.Order.{Ascending};
ghost use Rattle.division.specs.Ranges.{GroupRange, FirstLarger};
ghost use Rattle.finding.specs.Stepping.{Searched, Between, Strode};

use terms::{FlatTable, RowNumber, Variable};

// Two rows, or the rows from `low` to before `high`.
#[derive(Clone, Copy)]
pub struct Range {
    pub low: RowNumber,
    pub high: RowNumber,
}

// The last stride of a gallop: `stops` fails at `from`, or that is 0, and holds at `to`, or that is the end.
#[derive(Clone, Copy)]
struct Stride {
    from: usize,
    to: usize,
}

// From 0 on in strides that double, to the first that ends where `stops` holds, or at the end.
fn gallop<F: Fn(usize) -> bool>(end: usize, stops: F) -> Stride
    requires some { (0 < end) × (end ≤ 4096) }
    requires callable { (k : ℕ) → 0 < k → k < end → F.pre stops k }
    ensures { Strode (F.post stops) end result.from result.to }
{
    let mut to = 1;
    while to < end {
        if stops(to) {
            return Stride { from: to / 2, to };
        }
        to = 2 * to + 1;
    }
    Stride {
        from: to / 2,
        to: end,
    }
}

// The exponents of a table at variable i, among which those above a bound are looked for.
#[derive(Clone, Copy)]
struct Column<'a> {
    table: FlatTable<'a>,
    i: Variable,
    bound: u8,
}

impl<'a> Column<'a> {
    // From the range's first row on, to the first row looked at whose exponent is above the bound, or the range's end: a bracket, whose first row has no
    // exponent above the bound, and whose second has one, or is the range's end.
    fn ahead(self, range: Range) -> Range
        requires { Searched self.table.n (rows_of self.table) self.i.0 self.bound range.low.0 range.high.0 }
        ensures { Between (rows_of self.entry.table) self.entry.i.0 self.entry.bound range.low.0 range.high.0 result.low.0 result.high.0 }
    {
        let start = range.low.0;
        let above = |k| self.bound < self.table.exponent(RowNumber(start + k), self.i);
        let last = gallop(range.high.0 - start, above);
        Range {
            low: RowNumber(start + last.from),
            high: RowNumber(start + last.to),
        }
    }

    // From the range's end back, to the first row looked at whose exponent is not above the bound, or the range's start: a bracket.
    fn back(self, range: Range) -> Range
        requires { Searched self.table.n (rows_of self.table) self.i.0 self.bound range.low.0 range.high.0 }
        ensures { Between (rows_of self.entry.table) self.entry.i.0 self.entry.bound range.low.0 range.high.0 result.low.0 result.high.0 }
    {
        let end = range.high.0;
        let not_above = |k| self.table.exponent(RowNumber(end - k), self.i) <= self.bound;
        let last = gallop(end - range.low.0, not_above);
        Range {
            low: RowNumber(end - last.to),
            high: RowNumber(end - last.from),
        }
    }

    // A bracket in which the exponents first exceed the bound, looked for from `near` rows behind the range's first.
    fn enclose(self, range: Range, near: usize) -> Range
        requires { Searched self.table.n (rows_of self.table) self.i.0 self.bound range.low.0 range.high.0 × (0 < near) }
        ensures { Between (rows_of self.entry.table) self.entry.i.0 self.entry.bound range.low.0 range.high.0 result.low.0 result.high.0 }
    {
        if range.high.0 - range.low.0 <= near {
            return self.back(range);
        }
        let guess = RowNumber(range.low.0 + near);
        if self.table.exponent(guess, self.i) <= self.bound {
            return self.ahead(Range {
                low: guess,
                high: range.high,
            });
        }
        self.back(Range {
            low: range.low,
            high: guess,
        })
    }

    // Halves the rows of a bracket until its two rows are neighbours.
    fn narrow(self, bracket: Range) -> RowNumber
        requires { Searched self.table.n (rows_of self.table) self.i.0 self.bound bracket.low.0 bracket.high.0 }
        ensures { Between (rows_of self.entry.table) self.entry.i.0 self.entry.bound bracket.low.0 bracket.high.0 (result.0 - 1) result.0 }
    {
        let mut low = bracket.low.0;
        let mut high = bracket.high.0;
        while 1 < high - low {
            let middle = low + (high - low) / 2;
            if self.bound < self.table.exponent(RowNumber(middle), self.i) {
                high = middle;
            } else {
                low = middle;
            }
        }
        RowNumber(high)
    }
}

// The first later row of the range with a larger exponent at variable i, or the range's end where there is none. It is
// looked for from `near` rows on, which costs little where it is near there.
pub fn larger_from(table: FlatTable, i: Variable, range: Range, near: usize) -> RowNumber
    requires { (0 < i.0) × (i.0 ≤ table.n) × (range.high.0 ≤ 4096) × GroupRange (rows_of table) i.0 range.low.0 range.high.0
        × Ascending (rows_of table) × (0 < near) }
    ensures { FirstLarger (rows_of table.entry) i.0 range.low.0 range.high.0 result.0 }
{
    let bound = table.exponent(range.low, i);
    let column = Column { table, i, bound };
    column.narrow(column.enclose(range, near))
}

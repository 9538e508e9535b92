// The marks of a row from those of the next in the order of rows (rule 2).
ghost use Rattle.std.specs.Prelude.{◌≡◌, ◌+◌, ◌^◌, ◌≤◌};
ghost use Rattle.terms.specs.Order.{Precedes};
ghost use Rattle.terms.specs.Rows.{monomial_of};
ghost use Rattle.marking.specs.NextRow.{NextMarks};

use terms::Row;

// The byte with every mark of n variables: the marks of the last row.
pub fn marks_last(n: usize) -> u8
    requires { n ≤ 6 }
    ensures { result + 1 ≡ 2 ^ n }
{
    (1u8 << n) - 1
}

// The marks of a row from those of the next in the order of rows: where they first differ there is none, behind that all, before it the next row's.
// A row that precedes another differs from it, so there is such a place.
pub fn marks_by_next(row: Row, next: Row, marks: u8) -> u8
    requires { (row.n ≤ 6) × (next.n ≡ row.n) × Precedes (monomial_of row) (monomial_of next) }
    ensures { NextMarks row.n (monomial_of row) (monomial_of next) marks result }
{
    let first = row
        .exponents
        .iter()
        .zip(&next.exponents)
        .position(|(a, b)| a != b)
        .unwrap();
    let power = 1u8 << first;
    (marks & (power - 1)) + (marks_last(row.n) + 1 - 2 * power)
}

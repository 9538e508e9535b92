// Blocks of rows: a column set, a block repeated under further heads, its endings copied.
ghost use Rattle.std.specs.Prelude.{◌≡◌, ◌++◌, map, suc, ◌+◌, ◌*◌, ◌-◌, ◌≤◌, ◌<◌, IfSome, length, take, drop, set};
ghost use Rattle.terms.specs.Rows.{flat};
ghost use Rattle.blocks.specs.Bytes.{part, copies, fit};

use terms::{RowNumber, Variable};
use writing::{copy_from, copy_within};

// Sets the exponent e at variable i of the count rows of n bytes from row `first` on.
fn set_column(n: usize, out: &mut [u8], i: Variable, first: RowNumber, count: usize, e: u8)
    requires { ((first.0 + count) * n ≤ length out.old) × (0 < i.0) × (i.0 ≤ n) }
    ensures { take ((first.0 + count) * n) out.new
        ≡ take (first.0 * n) out.old ++ flat (map (λ u. set u (i.0 - 1) e) (part n count (first.0 * n) out.old)) }
{
    for row in first.0..first.0 + count {
        out[row * n + (i.0 - 1)] = e;
    }
}

// The count rows from row `first` on once more at row `end`, with e at variable i.
fn copy_block(
    n: usize,
    out: &mut [u8],
    i: Variable,
    first: RowNumber,
    count: usize,
    end: RowNumber,
    e: u8,
)
    requires { ((end.0 + count) * n ≤ length out.old) × (first.0 + count ≤ end.0) × (0 < i.0) × (i.0 ≤ n) }
    ensures { take ((end.0 + count) * n) out.new
        ≡ take (end.0 * n) out.old ++ flat (map (λ u. set u (i.0 - 1) e) (part n count (first.0 * n) out.old)) }
{
    copy_within(out, first.0 * n, end.0 * n, count * n);
    set_column(n, out, i, end, count, e);
}

// The block of the rows from `first` to `stop`, that of the head `last` at variable i, once more under each head between `last` and a; the new end,
// None where they do not fit.
pub fn repeat_block(
    n: usize,
    out: &mut [u8],
    i: Variable,
    first: RowNumber,
    stop: RowNumber,
    last: usize,
    a: usize,
) -> Option<usize>
    requires { (first.0 ≤ stop.0) × (stop.0 * n ≤ length out.old) × (0 < i.0) × (i.0 ≤ n) × (a ≤ 256) × (last ≤ 256) }
    ensures { (result ≡ fit n (length out.old) (stop.0
        + length (copies (i.0 - 1) (suc last) (a - suc last) (part n (stop.0 - first.0) (first.0 * n) out.old))))
        × IfSome result (λ end. take (end * n) out.new ≡ take (stop.0 * n) out.old
        ++ flat (copies (i.0 - 1) (suc last) (a - suc last) (part n (stop.0 - first.0) (first.0 * n) out.old))) }
{
    let count = stop.0 - first.0;
    let mut end = stop.0;
    for head in last + 1..a {
        if out.len() < (end + count) * n {
            return None;
        }
        copy_block(n, out, i, first, count, RowNumber(end), head as u8);
        end += count;
    }
    Some(end)
}

// Writes the last `rest` exponents of the count rows of n bytes from row `first` of out on to place `to`.
pub fn copy_ends(
    n: usize,
    out: &[u8],
    rest: usize,
    first: RowNumber,
    count: usize,
    bytes: &mut [u8],
    to: usize,
)
    requires { ((first.0 + count) * n ≤ length out.now) × (rest < n) × (to + count * rest ≤ length bytes.old) }
    ensures { take (to + count * rest) bytes.new
        ≡ take to bytes.old ++ flat (map (λ u. drop (n - rest) u) (part n count (first.0 * n) out.now)) }
{
    for row in 0..count {
        copy_from(
            bytes,
            to + row * rest,
            out,
            (first.0 + row) * n + (n - rest),
            rest,
        );
    }
}

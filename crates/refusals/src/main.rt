// Tables that the checks 1 to 4 and 12 refuse, and tables at their edge that pass: the number of each, a line each. The groups of 1 to 4 have
// equal rows, which these checks pass over.
#![tactic(auto)]

use checks::Refusal;
use distinct::check_distinct;
use terms::FlatTable;

// The table of these bytes, n to a row.
fn table(n: usize, bytes: &[u8]) -> FlatTable {
    FlatTable { n, bytes }
}

// Prints the number of a refusal on a line, 0 where there is none.
fn show(checked: Result<(), Refusal>) {
    let number = match checked {
        Ok(()) => 0,
        Err(refusal) => refusal.number(),
    };
    io::print_decimal(1, u64::from(number));
    io::write_all(1, b"\n");
}

// n is not 1 to 6, whatever else is wrong
fn variables() {
    show(table(0, b"").check());
    show(table(0, b"\xff").check());
    show(table(7, b"\xff").check());
    show(table(18446744073709551615, b"").check());
    show(table(1, b"").check());
    show(table(6, b"").check());
}

// lengths that are no multiple of n, before too many rows and before large entries
fn lengths() {
    show(table(2, b"\xff").check());
    show(table(6, b"\x00\x00\x00\x00\x00\xff\xff").check());
    show(table(2, &[51u8; 8195]).check());
    show(table(3, b"\x32\x32\x32").check());
}

// more than 4,096 rows, before large entries
fn counts() {
    show(table(1, &[0u8; 4096 + 1]).check());
    show(table(1, &[255u8; 4097]).check());
    show(table(2, &[50u8; 8194]).check());
    show(table(1, &[50u8; 4096]).check());
    show(table(6, &[0u8; 4096 * 6]).check());
}

// entries above 50
fn entries() {
    show(table(1, b"\x32").check());
    show(table(1, b"\x33").check());
    show(table(2, b"\x00\xff").check());
    show(table(6, &[51u8; 4096 * 6]).check());
}

// equal rows: next to each other, far apart, all; behind 1 to 4; and rows that are not equal
fn rows() {
    show(check_distinct(table(2, b"\x01\x00\x01\x00")));
    show(check_distinct(table(1, b"\x07\x05\x06\x07")));
    show(check_distinct(table(6, &[0u8; 4096 * 6])));
    show(check_distinct(table(
        7,
        b"\x00\x00\x00\x00\x00\x00\x00\x00\x00\x00\x00\x00\x00\x00",
    )));
    show(check_distinct(table(2, b"\x01\x00\x01\x00\x01")));
    show(check_distinct(table(1, &[0u8; 4096 + 1])));
    show(check_distinct(table(2, b"\x01\x00\x01\x00\x00\x33")));
    show(check_distinct(table(2, b"\x02\x01\x00\x02\x01\x02\x02\x00")));
    show(check_distinct(table(1, b"\x00\x01\x02\x32")));
    show(check_distinct(table(3, b"")));
}

fn main() {
    variables();
    lengths();
    counts();
    entries();
    rows();
}

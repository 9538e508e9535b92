// Tables opened out of bundles, a line for each: the number of the refusal, n, the row count, and the bytes that are shown. Beside a refusal
// n and the row count are 0, and no byte is shown.
#![tactic(auto)]

// Prints a space and a number.
fn print_field(number: u64) {
    io::write_all(1, b" ");
    io::print_decimal(1, number);
}

// Prints each byte behind a space.
fn print_bytes(bytes: &[u8]) {
    for byte in bytes {
        print_field(u64::from(*byte));
    }
}

// Prints one line: the three numbers, then each byte, parted by one space.
fn print_line(refusal: u8, n: usize, rows: usize, bytes: &[u8]) {
    io::print_decimal(1, u64::from(refusal));
    print_field(n as u64);
    print_field(rows as u64);
    print_bytes(bytes);
    io::write_all(1, b"\n");
}

// Opens table j of a bundle and prints its line.
fn show(bundle: &[u8], j: usize) {
    match bundle::open_table(bundle, j) {
        Ok(table) => print_line(0, table.n, table.rows, table.bytes),
        Err(refusal) => print_line(refusal.number(), 0, 0, &[]),
    }
}

// The paper's ten bytes: two variables, one table of two rows.
fn paper() {
    let bundle = b"\x02\x01\x02\x00\x06\x00\x02\x01\x00\x02";
    show(bundle, 0);
    show(bundle, 1);
    show(bundle, 18446744073709551615);
}

// Three variables, and three tables: of one row, of no row, of two rows.
fn three_tables() {
    let bundle =
        b"\x03\x03\x01\x00\x0e\x00\x00\x00\x11\x00\x02\x00\x11\x00\x01\x02\x03\x04\x05\x06\x07\x08\x32";
    show(bundle, 0);
    show(bundle, 1);
    show(bundle, 2);
    show(bundle, 3);
}

// Six variables, 41 rows in table 0, whose bytes are the digits 0, 1 and 2, and table 1 at 256: only the high byte of its offset is not 0.
fn far_table() {
    let bundle = b"\x06\x02\x29\x00\x0a\x00\x01\x00\x00\x01\
        000000000001000002000010000011000012000020000021000022000100000101000102000110000111000112000120000121000122000200000201\
        000202000210000211000212000220000221000222001000001001001002001010001011001012001020001021001022001100001101001102001110\
        001111\
        \x01\x02\x03\x04\x05\x06";
    show(bundle, 1);
}

// Sixteen empty tables at 66, the letter B; seventeen at 70, the letter F, are refused by 9.
fn many_tables() {
    let sixteen =
        b"\x01\x10\0\0B\0\0\0B\0\0\0B\0\0\0B\0\0\0B\0\0\0B\0\0\0B\0\0\0B\0\0\0B\0\0\0B\0\0\0B\0\0\0B\0\0\0B\0\0\0B\0\0\0B\0\0\0B\0";
    show(sixteen, 15);
    show(sixteen, 16);
    show(
        b"\x01\x11\0\0F\0\0\0F\0\0\0F\0\0\0F\0\0\0F\0\0\0F\0\0\0F\0\0\0F\0\0\0F\0\0\0F\0\0\0F\0\0\0F\0\0\0F\0\0\0F\0\0\0F\0\0\0F\0\0\0F\0",
        0,
    );
}

// Other bundles that 9 refuses, and one at the edge.
fn frames() {
    // below 2 bytes
    show(b"", 0);
    show(b"\x02", 0);
    // no tables; then n is 0 too
    show(b"\x02\x00", 0);
    show(b"\x00\x00", 0);
    // shorter than its header; then n is 0 too
    show(b"\x01\x01\x00\x00\x06", 0);
    show(b"\x00\x01\x00\x00\x06", 0);
    // 65,536 bytes, with a wrong offset too; with 65,535 bytes the offset is what refuses, 10
    show(&[1u8; 65536], 0);
    show(&[1u8; 65535], 0);
}

// Bundles that 1 refuses, and the least and the most variables.
fn variables() {
    // n is 0, n is 7; then there are 4,097 rows too
    show(b"\x00\x01\x00\x00\x06\x00", 0);
    show(b"\x07\x01\x00\x00\x06\x00", 0);
    show(b"\x07\x01\x01\x10\x06\x00", 0);
    // n is 1, with no row; n is 6, with one
    show(b"\x01\x01\x00\x00\x06\x00", 0);
    show(b"\x06\x01\x01\x00\x06\x00\x01\x02\x03\x04\x05\x06", 0);
}

// Bundles that 3 refuses, and what is next where there are 4,096 rows.
fn row_counts() {
    // 4,097 rows: all there, with a body that passes the end, with a wrong offset
    let mut bundle = [0u8; 6 + 4096 + 1];
    bundle[0] = 1;
    bundle[1] = 1;
    bundle[2] = 1;
    bundle[3] = 16;
    bundle[4] = 6;
    show(&bundle, 0);
    show(b"\x01\x01\x01\x10\x06\x00", 0);
    show(b"\x01\x01\x01\x10\x07\x00", 0);
    // 4,096 rows: one byte more, 11; all there, but equal, and no table 1, 12; with a body that passes the end, 11; with a wrong offset, 10
    bundle[2] = 0;
    show(&bundle, 0);
    show(&bundle[..6 + 4096], 1);
    show(b"\x01\x01\x00\x10\x06\x00", 0);
    show(b"\x01\x01\x00\x10\x07\x00", 0);
}

// Bundles that 10 refuses.
fn offsets() {
    // one too far, one too near, the high byte first
    show(b"\x02\x01\x01\x00\x07\x00\x00\x00", 0);
    show(b"\x02\x01\x01\x00\x05\x00\x00\x00", 0);
    show(b"\x02\x01\x01\x00\x00\x06\x00\x00", 0);
    // table 1 at the place of table 0; table 1 one too far, with table 0 asked for
    show(b"\x01\x02\x01\x00\x0a\x00\x01\x00\x0a\x00\x05\x06", 1);
    show(b"\x01\x02\x00\x00\x0a\x00\x00\x00\x0b\x00", 0);
    // one too far, and the body passes the end; and a byte remains; and table 1 has 4,097 rows
    show(b"\x01\x01\x02\x00\x07\x00\x05", 0);
    show(b"\x01\x01\x00\x00\x07\x00\x05", 0);
    show(b"\x01\x02\x00\x00\x0b\x00\x01\x10\x0a\x00", 0);
}

// Bundles that 11 refuses: a body passes the end, or bytes remain.
fn ends() {
    // the body passes the end; and table 1 has 4,097 rows; and an entry is above 50; and there is no such table
    show(b"\x02\x01\x01\x00\x06\x00\x00", 0);
    show(b"\x01\x02\x09\x00\x0a\x00\x01\x10\x13\x00", 0);
    show(b"\x01\x01\x02\x00\x06\x00\x33", 0);
    show(b"\x01\x01\x02\x00\x06\x00\x05", 1);
    // one byte remains; it is above 50; and an entry is above 50; and there is no such table
    show(b"\x02\x01\x01\x00\x06\x00\x00\x00\x00", 0);
    show(b"\x01\x01\x00\x00\x06\x00\x33", 0);
    show(b"\x01\x01\x01\x00\x06\x00\x33\x05", 0);
    show(b"\x02\x01\x01\x00\x06\x00\x00\x00\x00", 1);
}

// Bundles that 4 refuses, and one at the edge.
fn entries() {
    // 50, 51, and 255 behind a 0
    show(b"\x01\x01\x01\x00\x06\x00\x32", 0);
    show(b"\x01\x01\x01\x00\x06\x00\x33", 0);
    show(b"\x02\x01\x01\x00\x06\x00\x00\xff", 0);
    // 51 in table 1, with table 0 asked for; 51, and there is no such table
    show(b"\x01\x02\x01\x00\x0a\x00\x01\x00\x0b\x00\x05\x33", 0);
    show(b"\x01\x01\x02\x00\x06\x00\x32\x33", 3);
}

// Bundles that 12 refuses, and some at the edge.
fn equal_rows() {
    // next to each other; far apart; in table 1, with table 0 asked for; and there is no such table
    show(b"\x02\x01\x02\x00\x06\x00\x01\x00\x01\x00", 0);
    show(b"\x01\x01\x04\x00\x06\x00\x07\x05\x06\x07", 0);
    show(
        b"\x01\x02\x01\x00\x0a\x00\x03\x00\x0b\x00\x05\x09\x08\x09",
        0,
    );
    show(b"\x01\x01\x02\x00\x06\x00\x07\x07", 3);
    // and an entry above 50 in table 1, 4; and a byte remains, 11
    show(b"\x01\x02\x02\x00\x0a\x00\x01\x00\x0c\x00\x07\x07\x33", 0);
    show(b"\x01\x01\x02\x00\x06\x00\x07\x07\x07", 0);
    // the same row in two tables; rows that only begin or end alike
    show(b"\x01\x02\x01\x00\x0a\x00\x01\x00\x0b\x00\x07\x07", 1);
    show(b"\x02\x01\x03\x00\x06\x00\x01\x02\x01\x03\x00\x02", 0);
}

// The last of two tables, and one more, which 5 refuses.
fn table_numbers() {
    let bundle = b"\x01\x02\x01\x00\x0a\x00\x01\x00\x0b\x00\x05\x06";
    show(bundle, 1);
    show(bundle, 2);
}

// Opens them all, group by group.
fn main() {
    paper();
    three_tables();
    far_table();
    many_tables();
    frames();
    variables();
    row_counts();
    offsets();
    ends();
    entries();
    equal_rows();
    table_numbers();
}

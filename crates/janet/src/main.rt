// The program: reads a bundle on standard input and writes its listing on standard output. It only reads, calls and
// writes; every byte of the listing is made by the library.
#![tactic(auto)]

ghost use Rattle.std.specs.Prelude.{◌≡◌};
ghost use Rattle.checks.specs.Outcomes.{number_of};
ghost use Rattle.checks.specs.Refusals.{refusal};
ghost use Rattle.bundle.specs.Checks.{bundle_checks};

use checks::Refusal;

// Writes part j of the output for a bundle that was checked; whether all of it was written.
fn write_part(bundle: &[u8], checked: Result<(), Refusal>, j: usize) -> bool
    requires { number_of checked ≡ refusal (bundle_checks bundle.now) }
{
    let mut out = [0u8; listing::TEXT_SIZE];
    let size = listing::part_text_checked(bundle, checked, j, &mut out);
    io::write_all(1, &out[..size])
}

// Says on standard error that the listing could not be written.
fn tell_failure() {
    io::write_all(2, b"janet: the listing could not be written\n");
}

// Writes the parts of the output in order; stops at the first that could not be written, and tells it on standard error. The bundle is checked once.
fn write_parts(bundle: &[u8]) {
    let checked = bundle::check_bundle(bundle);
    for j in 0..bundle::MOST_TABLES {
        if !write_part(bundle, checked, j) {
            tell_failure();
            return;
        }
    }
}

// One byte more than a bundle may have is read, so that a longer input is noticed.
fn main() {
    let mut input = io::large_buffer();
    let size = io::read_full(0, &mut input);
    write_parts(&input[..size]);
}

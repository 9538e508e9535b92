// Binomials from a constant table (rule 10). Callers know them by `choose` alone: that they stand in a table is nobody's business above.
#![tactic(auto)]

ghost use Rattle.std.specs.Prelude.{◌≡◌, ◌≤◌};
ghost use Rattle.binomial.specs.Choose.{choose};

mod table;

use table::BINOMIALS;

// The number of ways to choose `bottom` things out of `top`.
pub fn choose(top: usize, bottom: usize) -> u64
    requires { (top ≤ 306) × (bottom ≤ 6) }
    ensures { result ≡ choose top bottom }
{
    BINOMIALS[top * 7 + bottom]
}

// The common divisor of a row's counts, and the row over it.
ghost use Rattle.std.specs.Prelude.{◌≡◌, ℕ, ◌/◌, ◌<◌, slice_index};
ghost use Rattle.cycle_theory.specs.Method.{divisor};

use divisor::common_divisor;

// The greatest number that divides every count; 0 for a row of zeros.
pub(crate) fn row_divisor(counts: &[u64; 24]) -> u64
    ensures { result ≡ divisor counts.now }
{
    counts.iter().rev().fold(0, |d, c| common_divisor(*c, d))
}

// Each count over a number that divides it.
pub(crate) fn divided_by(counts: &[u64; 24], by: u64) -> [u64; 24]
    requires { 0 < by }
    ensures { (j : ℕ) → j < 24 → slice_index result j ≡ slice_index counts.now j / by }
{
    std::array::from_fn(|j| counts[j] / by)
}

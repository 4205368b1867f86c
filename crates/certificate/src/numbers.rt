// Products of numbers, and the limit that the numbers of a certificate keep.
ghost use Rattle.std.specs.Prelude.{◌≡◌, ◌*◌, ◌<◌, ◌≤◌, MatchOption};
ghost use Rattle.cycle_theory.specs.Walk.{most};

// No number of a certificate is above this.
const MOST: u32 = 2_147_483_647;

// The product of two numbers, which always fits.
pub(crate) fn product(a: u32, b: u32) -> u64
    ensures { result ≡ a * b }
{
    u64::from(a) * u64::from(b)
}

// The number, where it is within the limit.
pub(crate) fn narrow(n: u64) -> Option<u32>
    ensures { MatchOption result (most < n) (λ m. (m ≡ n) × (m ≤ most)) }
{
    u32::try_from(n).ok().filter(|m| *m <= MOST)
}

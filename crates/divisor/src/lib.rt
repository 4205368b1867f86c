// Euclid's algorithm.
#![tactic(auto)]

ghost use Rattle.std.specs.Prelude.{◌≡◌, ◌<◌, ◌≤◌};
ghost use Rattle.cycle_theory.specs.Method.{gcd};

// The greatest common divisor of two numbers; that of a number and 0 is the number.
pub fn common_divisor(a: u64, b: u64) -> u64
    ensures value { result ≡ gcd a b }
    ensures some { 0 < b → 0 < result }
    ensures within { 0 < b → result ≤ b }
{
    let mut x = a;
    let mut y = b;
    while y != 0 {
        (x, y) = (y, x % y);
    }
    x
}

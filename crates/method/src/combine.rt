// The row of a pair: r × u + s × v over the common divisor of its counts. A count is at most 1,048,575 and a factor below 2^35,
// so nothing passes 64 bits before it is divided.
ghost use Rattle.std.specs.Prelude.{◌≡◌, ◌^◌, ◌<◌};
ghost use Rattle.cycle_theory.specs.Method.{weighted, divided};
ghost use Rattle.method.specs.Fitting.{Fitted};

use crate::divide::{divided_by, row_divisor};
use crate::held::Held;
use ledger::{MOST_COUNT, Row};

// r × u + s × v in lowest terms; none where a count is then too large to hold.
pub(crate) fn combine_rows(u: &Held, v: &Held, r: u64, s: u64) -> Option<Held>
    requires r_small { r < 2 ^ 35 }
    requires s_small { s < 2 ^ 35 }
    ensures { Fitted (divided (weighted r u.now.row.counts s v.now.row.counts)) result }
{
    let counts = weighted_sum(u, v, r, s);
    // A row of zeros has the divisor 0, and stays as it is.
    let by = row_divisor(&counts).max(1);
    fitted(&divided_by(&counts, by))
}

// r × u + s × v, step by step.
fn weighted_sum(u: &Held, v: &Held, r: u64, s: u64) -> [u64; 24]
    requires r_small { r < 2 ^ 35 }
    requires s_small { s < 2 ^ 35 }
    ensures { result ≡ weighted r u.now.row.counts s v.now.row.counts }
{
    std::array::from_fn(|j| r * u.row.counts[j] as u64 + s * v.row.counts[j] as u64)
}

// The row with these counts, where a ledger may hold them. Certificates narrow their numbers too, under a limit of their own.
fn fitted(counts: &[u64; 24]) -> Option<Held>
    ensures { Fitted counts.now result }
{
    let mut row = Row::zeros();
    for (j, &count) in counts.iter().enumerate() {
        if count > u64::from(MOST_COUNT) {
            return None;
        }
        row.counts[j] = count as u32;
    }
    Some(Held { row })
}

// The least ratio of what is left to a row, step by step, without common divisor.
ghost use Rattle.std.specs.Prelude.{◌≡◌, length, Some};
ghost use Rattle.cycle_theory.specs.Walk.{lesser, lowest, least_to, least_ratio};
ghost use Rattle.certificate.specs.Ratios.{ratio_of};

use crate::numbers::product;
use crate::ratio::Ratio;
use divisor::common_divisor;
use ledger::Row;

// top / bottom where it is below the best so far, else the best so far; where bottom is 0 there is no ratio.
fn lesser(best: Option<Ratio>, top: u32, bottom: u32) -> Option<Ratio>
    ensures { ratio_of result ≡ lesser (ratio_of best) top bottom }
{
    if bottom == 0 {
        return best;
    }
    let here = Ratio { top, bottom };
    if best.is_none_or(|best| product(here.top, best.bottom) < product(best.top, here.bottom)) {
        Some(here)
    } else {
        best
    }
}

// The least rest count / row count over the steps that the row uses, as it stands there; none where it uses no step.
#[tactic(auto, using(crate::proofs::LeastSoFar::least_to_none, crate::proofs::LeastSoFar::least_to_more))]
fn least(row: &Row, rest: &Row) -> Option<Ratio>
    ensures { ratio_of result ≡ least_to (length row.now.counts) row.now.counts rest.now.counts }
{
    let mut best = None;
    for (bottom, top) in row.counts.iter().zip(&rest.counts) {
        best = lesser(best, *top, *bottom);
    }
    best
}

impl Ratio {
    // The same ratio without common divisor.
    fn lowest(&self) -> Ratio
        ensures { ratio_of (Some result) ≡ lowest (ratio_of (Some self.now)) }
    {
        let common = common_divisor(u64::from(self.top), u64::from(self.bottom)) as u32;
        Ratio {
            top: self.top / common,
            bottom: self.bottom / common,
        }
    }
}

// The least rest count / row count over the steps that the row uses, without common divisor; none where it uses no step.
pub(crate) fn least_ratio(row: &Row, rest: &Row) -> Option<Ratio>
    ensures { ratio_of result ≡ least_ratio row.now.counts rest.now.counts }
{
    let best = least(row, rest)?;
    Some(best.lowest())
}

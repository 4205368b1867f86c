// Making a place of a list of effects, and reading the list back.
ghost use Rattle.std.specs.Prelude.{◌≡◌, true, false, [], MatchOption};
ghost use Rattle.method.specs.Effects.{outside, some, first_outside};
ghost use Rattle.method.specs.Places.{effects_of, Checked};

use crate::{Place, PlaceFault};
use inline_list::InlineList;

impl Place {
    // The place with these effects; refused where they are more than 24, or where one is out of range.
    pub fn new(effects: &[i32]) -> Result<Place, PlaceFault>
        ensures { Checked effects.now result }
    {
        let kept = InlineList::from_slice(effects, 0).map_err(|_| PlaceFault::TooLong)?;
        match first_outside(effects) {
            Some(step) => Err(PlaceFault::Effect(step)),
            None => Ok(Place { effects: kept }),
        }
    }

    // The place with no effects, a blank for lists of places.
    pub fn none() -> Place
        ensures { effects_of result ≡ [] }
    {
        Place {
            effects: InlineList::new(0),
        }
    }

    // The effects, one for each step.
    pub fn effects(&self) -> &[i32]
        ensures { result.now ≡ effects_of self.now }
    {
        self.effects.as_slice()
    }
}

// Whether an effect is more than 1,000 either way.
fn is_outside(effect: &i32) -> bool
    ensures { result ≡ outside effect.now }
{
    *effect > 1000 || *effect < -1000
}

// The first step, from 1, whose effect is out of range.
fn first_outside(effects: &[i32]) -> Option<usize>
    ensures { MatchOption result (some outside effects.now ≡ false) (λ step. (some outside effects.now ≡ true) × (step ≡ first_outside 1 effects.now)) }
{
    effects.iter().position(is_outside).map(|i| i + 1)
}

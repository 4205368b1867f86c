// The standing net: the command net of our own stations, with seven steps (sample, send, frame lost, frame received, release,
// acknowledgement lost, reject) and four places.
ghost use Rattle.std.specs.Prelude.{◌≡◌, map};
ghost use Rattle.cycle_theory.specs.Theorems.{AllMinimal};
ghost use Rattle.netfile.specs.Standing.{standing_places, standing_cycles};

// What each step adds to a place.
#[derive(Clone, Copy)]
pub struct StandingPlace {
    pub effects: [i32; 7],
}

// The places of the standing net. It has four minimal cycles: a reject; a send, a frame received and an acknowledgement lost;
// a send and a frame lost; a sample, a send, a frame received and a release.
pub fn standing_net() -> [StandingPlace; 4]
    ensures table { map (λ place. place.effects) result ≡ standing_places }
    ensures cycles { AllMinimal 7 standing_places standing_cycles }
{
    const STANDING: [StandingPlace; 4] = [
        StandingPlace {
            effects: [-1, 0, 0, 0, 1, 0, 0],
        },
        StandingPlace {
            effects: [1, -1, 1, 0, 0, 1, 0],
        },
        StandingPlace {
            effects: [0, 1, -1, -1, 0, 0, 0],
        },
        StandingPlace {
            effects: [0, 0, 0, 1, -1, -1, 0],
        },
    ];
    STANDING
}

// Worked nets as one table, proved entry by entry: the rows are the minimal cycles of the places, and the questions are answered as told.
#![tactic(auto)]

ghost use Rattle.std.specs.Prelude.{◌≤◌, MatchOption};
ghost use Rattle.worked.specs.Table.{RightNet, AllRight};

mod net;

pub use net::{WorkedCertificate, WorkedNet, WorkedQuestion};

const NETS: [WorkedNet; 11] = [
    // The cycle 1 1 1 2 is no row: both rows use only steps which it uses.
    WorkedNet {
        steps: 4,
        places: &[&[2, -1, 1, -1], &[-1, 1, 2, -1]],
        rows: &[&[1, 0, 3, 5], &[2, 3, 0, 1]],
        questions: &[],
        too_large: &[],
    },
    // The same with a third place.
    WorkedNet {
        steps: 4,
        places: &[&[2, -1, 1, -1], &[-1, 1, 2, -1], &[1, 1, 1, -2]],
        rows: &[&[5, 6, 3, 7]],
        questions: &[],
        too_large: &[],
    },
    // The three places backwards.
    WorkedNet {
        steps: 4,
        places: &[&[1, 1, 1, -2], &[-1, 1, 2, -1], &[2, -1, 1, -1]],
        rows: &[&[5, 6, 3, 7]],
        questions: &[],
        too_large: &[],
    },
    // Five steps, where rows are divided by their common divisor on the way.
    WorkedNet {
        steps: 5,
        places: &[&[4, 2, -3, -2, -1], &[2, -1, -4, 1, 5], &[0, 2, 4, 0, -9]],
        rows: &[&[0, 63, 18, 25, 22], &[63, 0, 72, 2, 32]],
        questions: &[WorkedQuestion {
            counts: &[19, 1, 22, 1, 10],
            certificate: Some(WorkedCertificate {
                multiplier: 63,
                coefficients: &[1, 19],
            }),
        }],
        too_large: &[],
    },
    // The net of our stations: sample, send, frame lost, frame received, release, acknowledgement lost, reject.
    WorkedNet {
        steps: 7,
        places: &[
            &[-1, 0, 0, 0, 1, 0, 0],
            &[1, -1, 1, 0, 0, 1, 0],
            &[0, 1, -1, -1, 0, 0, 0],
            &[0, 0, 0, 1, -1, -1, 0],
        ],
        rows: &[
            &[0, 0, 0, 0, 0, 0, 1],
            &[0, 1, 0, 1, 0, 1, 0],
            &[0, 1, 1, 0, 0, 0, 0],
            &[1, 1, 0, 1, 1, 0, 0],
        ],
        questions: &[WorkedQuestion {
            counts: &[1, 3, 1, 2, 1, 1, 0],
            certificate: Some(WorkedCertificate {
                multiplier: 1,
                coefficients: &[0, 1, 1, 1],
            }),
        }],
        too_large: &[],
    },
    // The same net with a reject that clears a sample.
    WorkedNet {
        steps: 7,
        places: &[
            &[-1, 0, 0, 0, 1, 0, 1],
            &[1, -1, 1, 0, 0, 1, -1],
            &[0, 1, -1, -1, 0, 0, 0],
            &[0, 0, 0, 1, -1, -1, 0],
        ],
        rows: &[
            &[0, 1, 0, 1, 0, 1, 0],
            &[0, 1, 1, 0, 0, 0, 0],
            &[1, 0, 0, 0, 0, 0, 1],
            &[1, 1, 0, 1, 1, 0, 0],
        ],
        questions: &[],
        too_large: &[],
    },
    // One step with an effect is no cycle, however often it is taken.
    WorkedNet {
        steps: 1,
        places: &[&[1]],
        rows: &[],
        questions: &[],
        too_large: &[],
    },
    // One step without an effect is a cycle.
    WorkedNet {
        steps: 1,
        places: &[&[0]],
        rows: &[&[1]],
        questions: &[],
        too_large: &[],
    },
    // The largest count that a row may hold.
    WorkedNet {
        steps: 4,
        places: &[&[75, -1, 0, 0], &[0, 341, -1, 0], &[0, 0, 41, -1]],
        rows: &[&[1, 75, 25575, 1048575]],
        questions: &[],
        too_large: &[],
    },
    // A third place would leave a row with a count one too large.
    WorkedNet {
        steps: 4,
        places: &[&[64, -1, 0, 0], &[0, 128, -1, 0]],
        rows: &[&[0, 0, 0, 1], &[1, 64, 8192, 0]],
        questions: &[],
        too_large: &[&[0, 0, 128, -1]],
    },
    // Effects of the largest size.
    WorkedNet {
        steps: 4,
        places: &[&[-1, -1, 1000, 0], &[0, 0, -1, 1000]],
        rows: &[&[0, 1000000, 1000, 1], &[1000000, 0, 1000, 1]],
        questions: &[
            WorkedQuestion {
                counts: &[1, 999999, 1000, 1],
                certificate: Some(WorkedCertificate {
                    multiplier: 1000000,
                    coefficients: &[999999, 1],
                }),
            },
            WorkedQuestion {
                counts: &[600001, 399999, 1000, 1],
                certificate: None,
            },
        ],
        too_large: &[],
    },
];

// The whole table, as one value with one fact about it: a proof over `NETS` itself meets every number of it, and does not close.
fn worked_nets() -> [WorkedNet; 11]
    ensures { AllRight result }
{
    NETS
}

// Worked net k, counted from 0. Its rows are strictly ascending, and are its minimal cycles and nothing else; its questions come to what
// stands beside them, and of its places too large some new row has a count above 1,048,575.
pub fn worked_net(k: usize) -> Option<WorkedNet>
    ensures { MatchOption result (11 ≤ k) RightNet }
{
    worked_nets().get(k).copied()
}

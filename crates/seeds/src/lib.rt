// A seed, and lists of seeds: entries in a lent list of numbers and their merging, round 0's list and a later
// round's. The rules are in specs/, their laws in specs/ and proofs/; specs/Admissible.antt says how many seeds a
// later round has.

#![tactic(auto)]

pub mod checks;
pub mod grids;
pub mod laws;
pub mod lists;

ghost use Rattle.std.specs.Prelude.{◌≡◌};
ghost use Rattle.seeds.specs.Layout.{six, seed_at};

use camera::intrinsics::FxFyCxCy;
use camera::sensor::ScheimpflugParams;

// A seed, from which the host begins to solve: the camera's intrinsics and the pair of tilts.
#[repr(C)]
#[derive(Clone, Copy, Default)]
pub struct CandidateSeed {
    pub reference_k: FxFyCxCy,
    pub sensor: ScheimpflugParams,
}

// The six numbers of a seed, in the order that a list of numbers has them.
impl From<CandidateSeed> for [f64; 6] {
    ghost from_gives = { λ seed numbers. numbers ≡ six seed };

    fn from(seed: CandidateSeed) -> [f64; 6] {
        let k = seed.reference_k;
        let t = seed.sensor;
        [k.fx, k.fy, k.cx, k.cy, t.tilt_x, t.tilt_y]
    }
}

impl From<[f64; 6]> for CandidateSeed {
    ghost from_gives = { λ numbers seed. seed ≡ seed_at numbers 0 };

    fn from(numbers: [f64; 6]) -> CandidateSeed {
        CandidateSeed {
            reference_k: FxFyCxCy {
                fx: numbers[0],
                fy: numbers[1],
                cx: numbers[2],
                cy: numbers[3],
            },
            sensor: ScheimpflugParams {
                tilt_x: numbers[4],
                tilt_y: numbers[5],
            },
        }
    }
}

// The floor of the seeds that are left in a round: the lowest tilt penalty among them, below which none of them can score (proofs/FloorLaws.antt).

ghost use Rattle.std.specs.Prelude.{◌≡◌, ◌*◌, ◌≤◌, length};
ghost use Rattle.float.specs.Float.{min_of};
ghost use Rattle.score.specs.Floor.{counted_penalty, seeds_between, floor_of};

use crate::penalties::tilt_complexity;
use camera::sensor::ScheimpflugParams;
use seeds::CandidateSeed;

// A seed's tilt penalty as it counts for the floor: NaN, which only a changed list can give, counts as infinity.
#[tactic(auto, using(crate::proofs::Steps::infinity_bits), unfolding(crate::specs::Floor::counted_penalty))]
pub fn counted_penalty(sensor: ScheimpflugParams) -> f64
    ensures { result ≡ counted_penalty sensor }
{
    let penalty = tilt_complexity(sensor);
    if penalty.is_nan() {
        return f64::INFINITY;
    }
    penalty
}

// The lower of a floor and a seed's counted penalty. Mostly this is the floor, and one comparison is enough.
#[tactic(auto, using(crate::proofs::FloorKept::floor_stays_if_le_penalty))]
fn lowered(floor: f64, sensor: ScheimpflugParams) -> f64
    ensures { result ≡ min_of floor (counted_penalty sensor) }
{
    if floor <= tilt_complexity(sensor) {
        return floor;
    }
    float::min(floor, counted_penalty(sensor))
}

// The floor of the seeds that stand in the list from place `from` up to place `to`; infinity where there is none.
pub fn floor_between(list: &[f64], from: usize, to: usize) -> f64
    requires { (from ≤ to) × (6 * to ≤ length list.now) }
    ensures { result ≡ floor_of (seeds_between list.now from to) }
{
    list[6 * from..6 * to]
        .as_chunks::<6>()
        .0
        .iter()
        .map(|six| CandidateSeed::from(*six))
        .fold(f64::INFINITY, |floor, seed| lowered(floor, seed.sensor))
}

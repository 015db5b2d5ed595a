// A plate with a known answer: the six numbers of a conic from which the closed form gives a chosen camera back, or a
// refusal. Each function equals its definition, for every input; specs/Theorem.antt says that the camera comes back.

ghost use Rattle.std.specs.Prelude.{◌≡◌, ℕ, ◌≤◌};
ghost use Rattle.zhang.specs.Plate.{times_unit, shared_unit, conic_with, plate_of};
ghost use Rattle.zhang.specs.Whole.{whole_times, SizesOf};

use crate::Conic;
use camera::intrinsics::FxFyCxCy;
use common::Refusal;

// The size of x if x is a whole number below 65537 in size. At most 256 units of at most 256 each are such a number.
fn whole_size(x: f64) -> Option<u64>
    ensures { (unit : ℕ) → unit ≤ 256 → times_unit unit x ≡ whole_times unit result }
{
    let size = float::abs(x);
    if !(size < 65537.0) {
        return None;
    }
    // A fraction makes the whole part another number, however small it is; x / unit could round to 0.
    let whole = std::num::truncating_f64_to_u64(size);
    if whole as f64 != size {
        return None;
    }
    Some(whole)
}

// The sizes of those of a camera's four numbers that are whole.
#[derive(Clone, Copy)]
struct WholeSizes {
    fx: Option<u64>,
    fy: Option<u64>,
    cx: Option<u64>,
    cy: Option<u64>,
}

fn whole_sizes(k: FxFyCxCy) -> WholeSizes
    ensures { SizesOf k result }
{
    WholeSizes {
        fx: whole_size(k.fx),
        fy: whole_size(k.fy),
        cx: whole_size(k.cx),
        cy: whole_size(k.cy),
    }
}

// Whether a whole number is a number of units, at most 256 of them.
fn times_unit(size: Option<u64>, unit: u64) -> bool
    requires { 1 ≤ unit }
    ensures { result ≡ whole_times unit size }
{
    match size {
        None => false,
        Some(whole) => (whole % unit == 0) & (whole / unit <= 256),
    }
}

// Whether the four are whole numbers of units, in their ranges.
#[tactic(auto, unfolding(crate::specs::Plate::shared_unit))]
fn shared_unit(k: FxFyCxCy, sizes: WholeSizes, unit: u64) -> bool
    requires in_range { (1 ≤ unit) × (unit ≤ 256) }
    requires sizes { SizesOf k sizes }
    ensures { result ≡ shared_unit unit k }
{
    times_unit(sizes.fx, unit)
        & times_unit(sizes.fy, unit)
        & times_unit(sizes.cx, unit)
        & times_unit(sizes.cy, unit)
        & (0.0 < k.fx)
        & (0.0 < k.fy)
}

// The six numbers, each operation exact where the four are whole numbers of units.
#[tactic(auto, unfolding(crate::specs::Plate::conic_with))]
fn conic_with(k: FxFyCxCy, unit: f64) -> Conic
    ensures { result ≡ conic_with unit k }
{
    let FxFyCxCy { fx, fy, cx, cy } = k;
    let p = fx / unit;
    let q = fy / unit;
    Conic {
        b11: q * q,
        b12: 0.0,
        b22: p * p,
        b13: -(cx * (q * q)),
        b23: -(cy * (p * p)),
        b33: cx * cx * (q * q) + cy * cy * (p * p) + fx * fx * (q * q),
    }
}

// The six numbers of a camera, by the lowest power of two that its four share.
#[tactic(auto, using(crate::proofs::Turns::shift_is_power, crate::proofs::Turns::power_in_range, crate::proofs::Turns::turn_stops_with_plate, crate::proofs::Turns::turn_goes_on_with_double, crate::proofs::Turns::loop_ends_without_plate))]
pub fn known_plate(k: FxFyCxCy) -> Result<Conic, Refusal>
    ensures { result ≡ plate_of k }
{
    let sizes = whole_sizes(k);
    for power in 0..9u64 {
        let unit = 1u64 << power;
        if shared_unit(k, sizes, unit) {
            return Ok(conic_with(k, unit as f64));
        }
    }
    Err(Refusal::NoSharedPower)
}

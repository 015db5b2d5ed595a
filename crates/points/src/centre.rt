// The observed centre.

ghost use Rattle.std.specs.Prelude.{◌≡◌, ◌&&◌, true};
ghost use Rattle.std.specs.Float.Ieee.{le};
ghost use Rattle.float.specs.Binary64.{◌+₆₄◌, ◌*₆₄◌};
ghost use Rattle.float.specs.Float.{is_finite, min_of, max_of};
ghost use Rattle.float.specs.Literals.{plus_zero, half₆₄};
ghost use Rattle.points.specs.Centre.{widen, extent_of, centre_of, centre_reply};

use camera::math::Pt2;
use common::Refusal;

// The least and the greatest coordinates.
#[derive(Clone, Copy)]
pub struct Extent {
    pub min_x: f64,
    pub min_y: f64,
    pub max_x: f64,
    pub max_y: f64,
}

// The lower of two numbers, as `float::min` gives it, where the second is finite: then one comparison decides, since it
// fails where the first is NaN.
fn lower(x: f64, y: f64) -> f64
    requires { is_finite y ≡ true }
    ensures { result ≡ min_of x y }
{
    if x <= y { x } else { y }
}

// The higher, likewise.
fn higher(x: f64, y: f64) -> f64
    requires { is_finite y ≡ true }
    ensures { result ≡ max_of x y }
{
    if y <= x { x } else { y }
}

// Whether a pixel lies in the extent.
fn holds(e: Extent, p: Pt2) -> bool
    ensures { result ≡ (le e.min_x p.x && le p.x e.max_x && le e.min_y p.y && le p.y e.max_y) }
{
    e.min_x <= p.x && p.x <= e.max_x && e.min_y <= p.y && p.y <= e.max_y
}

// The extent with one more pixel, if both of its coordinates are finite. Most pixels lie in the extent; testing for
// that first avoids selections that wait for those of the pixel before.
#[tactic(auto, using(crate::proofs::Held::pixel_inside_keeps_extent))]
fn widened(e: Extent, p: Pt2) -> Extent
    ensures { result ≡ widen e p }
{
    if holds(e, p) {
        return e;
    }
    if float::is_finite(p.x) && float::is_finite(p.y) {
        return Extent {
            min_x: lower(e.min_x, p.x),
            min_y: lower(e.min_y, p.y),
            max_x: higher(e.max_x, p.x),
            max_y: higher(e.max_y, p.y),
        };
    }
    e
}

fn extent_of(pixels: &[f64]) -> Extent
    ensures { result ≡ extent_of pixels.now }
{
    let none = Extent {
        min_x: f64::INFINITY,
        min_y: f64::INFINITY,
        max_x: f64::NEG_INFINITY,
        max_y: f64::NEG_INFINITY,
    };
    let pairs = pixels.as_chunks::<2>().0;
    pairs
        .iter()
        .fold(none, |e, &[x, y]| widened(e, Pt2 { x, y }))
}

fn none_negative(e: Extent) -> bool
    ensures { result ≡ (le plus_zero e.min_x && le plus_zero e.min_y) }
{
    e.min_x >= 0.0 && e.min_y >= 0.0
}

fn middle(e: Extent) -> Pt2
    ensures { result ≡ record { x = half₆₄ *₆₄ (e.min_x +₆₄ e.max_x); y = half₆₄ *₆₄ (e.min_y +₆₄ e.max_y) } }
{
    Pt2 {
        x: 0.5 * (e.min_x + e.max_x),
        y: 0.5 * (e.min_y + e.max_y),
    }
}

// Half the greatest coordinates if none is negative, else the middle of the range.
#[tactic(auto, unfolding(crate::specs::Centre::centre_of))]
fn centre_of(e: Extent) -> Pt2
    ensures { result ≡ centre_of e }
{
    if float::all_finite(&[e.min_x, e.min_y, e.max_x, e.max_y]) {
        if none_negative(e) {
            return Pt2 {
                x: 0.5 * e.max_x,
                y: 0.5 * e.max_y,
            };
        }
        return middle(e);
    }
    Pt2::default()
}

#[tactic(auto, unfolding(crate::specs::Centre::centre_reply))]
pub fn observed_pixel_center(pixels: &[f64]) -> Result<Pt2, Refusal>
    ensures { result ≡ centre_reply pixels.now }
{
    if pixels.len() % 2 != 0 {
        return Err(Refusal::BadPoints);
    }
    Ok(centre_of(extent_of(pixels)))
}

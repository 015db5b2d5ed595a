// Hartley's normalisation of a list of points, and what other modules need of such lists.

ghost use Rattle.std.specs.Prelude.{◌≡◌, ◌++◌, ◌≤◌, length, drop};
ghost use Rattle.camera.specs.declared.math.Pt2.{Pt2};
ghost use Rattle.common.specs.Checks.{first_refusal};
ghost use Rattle.points.specs.Points.{bad_points, length_checks, map_points};
ghost use Rattle.points.specs.Linalg.{centroid_of, mean_distance, scaled_to, similarity_of, hartley_of, move_by, transform_of, normalize_reply, normalize_into};

use camera::math;
use camera::math::Pt2;
use common::Refusal;
use std::num::nearest_usize_to_f64;

// The map of a point p to (p - c) * scale, c being (cx, cy). cx and cy are fields of their own, as in the published
// Rust.
#[derive(Clone, Copy)]
pub struct Similarity {
    pub scale: f64,
    pub cx: f64,
    pub cy: f64,
}

// The numbers of a similarity's matrix that are neither 0 nor 1; t11 is t00.
#[derive(Clone, Copy, Default)]
pub struct Transform {
    pub t00: f64,
    pub t02: f64,
    pub t12: f64,
}

impl From<Similarity> for Transform {
    ghost from_gives = { λ t matrix. matrix ≡ transform_of t };

    fn from(t: Similarity) -> Transform {
        Transform {
            t00: t.scale,
            t02: -t.scale * t.cx,
            t12: -t.scale * t.cy,
        }
    }
}

// Whether n numbers are no list of points, or one of more than 400. Of the lists only the lengths matter, here and in
// `check_lengths`.
pub fn bad_points(n: usize) -> bool
    ensures { result ≡ bad_points n }
{
    n % 2 != 0 || n > 800
}

// The first reason to refuse a list of so many numbers, and a destination with room for so many.
pub fn check_lengths(numbers: usize, room: usize) -> Result<(), Refusal>
    ensures { result ≡ first_refusal (length_checks numbers room) }
{
    if bad_points(numbers) {
        return Err(Refusal::BadPoints);
    }
    if room < numbers {
        return Err(Refusal::DestinationTooShort);
    }
    Ok(())
}

fn centroid(points: &[f64]) -> Pt2
    ensures { result ≡ centroid_of points.now }
{
    let pairs = points.as_chunks::<2>().0;
    let sum = pairs.iter().fold(
        Pt2::default(),
        |sum, &[x, y]| Pt2 {
            x: sum.x + x,
            y: sum.y + y,
        },
    );
    let n = nearest_usize_to_f64(points.len() / 2);
    Pt2 {
        x: sum.x / n,
        y: sum.y / n,
    }
}

fn mean_distance(points: &[f64], c: Pt2) -> f64
    ensures { result ≡ mean_distance c points.now }
{
    let pairs = points.as_chunks::<2>().0;
    let sum = pairs
        .iter()
        .fold(0.0, |sum, &[x, y]| sum + math::distance(Pt2 { x, y }, c));
    let n = nearest_usize_to_f64(points.len() / 2);
    sum / n
}

// The similarity that brings c to the origin and a distance of mean from it to √2.
fn scaled_to(c: Pt2, mean: f64) -> Similarity
    ensures { result ≡ scaled_to c mean }
{
    Similarity {
        scale: root::machine::sqrt(2.0) / mean,
        cx: c.x,
        cy: c.y,
    }
}

// The similarity that brings the centroid to the origin and the mean distance from it to √2. For points that aren't
// collinear that distance is never too small (points/proofs/Spread.antt), so `design_rows` doesn't check it.
pub fn normalizing(points: &[f64]) -> Similarity
    ensures { result ≡ similarity_of points.now }
{
    let c = centroid(points);
    scaled_to(c, mean_distance(points, c))
}

// The same, unless there are no points or their mean distance is at most 2^-52.
fn hartley(points: &[f64]) -> Option<Similarity>
    ensures { result ≡ hartley_of points.now }
{
    if points.is_empty() {
        return None;
    }
    let c = centroid(points);
    let mean_dist = mean_distance(points, c);
    // 2^-52
    if mean_dist <= 2.220446049250313e-16 {
        return None;
    }
    Some(scaled_to(c, mean_dist))
}

pub fn moved(t: Similarity, p: Pt2) -> Pt2
    ensures { result ≡ move_by t p }
{
    Pt2 {
        x: (p.x - t.cx) * t.scale,
        y: (p.y - t.cy) * t.scale,
    }
}

// Each point as `map` gives it, at the front of the destination. Each number is written at its index, since after a
// loop over chunks_exact_mut a proof knows the length of `to`, but not what it holds.
pub fn map_points<F: Fn(Pt2) -> Pt2>(map: F, points: &[f64], to: &mut [f64])
    requires callable { F.IsAlwaysCallable map }
    requires room { length points.now ≤ length to.old }
    ensures { (f : Pt2 → Pt2) → ((p q : Pt2) → F.post map p q → q ≡ f p) → to.new ≡ map_points f points.now ++ drop (length (map_points f points.now)) to.old }
{
    let pairs = points.as_chunks::<2>().0;
    for (i, &[x, y]) in pairs.iter().enumerate() {
        let mapped = map(Pt2 { x, y });
        to[2 * i] = mapped.x;
        to[2 * i + 1] = mapped.y;
    }
}

// The points, moved so that their centroid is the origin and their mean distance from it √2, at the front of dst.
#[tactic(auto, unfolding(crate::specs::Linalg::hartley_of, crate::specs::Linalg::normalize_refusal, crate::specs::Linalg::normalize_reply, crate::specs::Linalg::normalize_into))]
pub fn normalize_points_2d(points: &[f64], dst: &mut [f64]) -> Result<Transform, Refusal>
    ensures reply { result ≡ normalize_reply points.now (length dst.old) }
    ensures written { dst.new ≡ normalize_into points.now dst.old }
{
    check_lengths(points.len(), dst.len())?;
    let t = hartley(points).ok_or(Refusal::Coincident)?;
    map_points(|p| moved(t, p), points, dst);
    Ok(Transform::from(t))
}

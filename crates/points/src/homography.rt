// The line test, and the design matrix of the homography's direct linear transform.

ghost use Rattle.std.specs.Prelude.{◌≡◌, ◌*◌, ◌≤◌, [], ◌∷◌, length};
ghost use Rattle.std.proofs.lemmas.List.Edits.{sets};
ghost use Rattle.common.specs.Checks.{first_refusal};
ghost use Rattle.points.specs.Line.{cross_of, off_line, first_distinct, any_off, collinear_of, line_reply};
ghost use Rattle.points.specs.Rows.{point_conditions, first_row, second_row, design_rows, rows_refusal, rows_reply, rows_into};

use crate::linalg;
use crate::linalg::Similarity;
use camera::math;
use camera::math::Pt2;
use common::Refusal;

// The first point after the first one that isn't in the place of p0.
fn first_distinct(points: &[f64], p0: Pt2) -> Option<Pt2>
    requires { 2 ≤ length points.now }
    ensures { result ≡ first_distinct p0 points.now }
{
    let pairs = points[2..].as_chunks::<2>().0;
    pairs
        .iter()
        .map(|&[x, y]| Pt2 { x, y })
        .find(|p| math::distance(*p, p0) > 1e-9)
}

// Twice the area of the triangle of the three points, with a sign. Here and below a line is given by two of its points.
fn cross(p0: Pt2, p1: Pt2, p2: Pt2) -> f64
    ensures { result ≡ cross_of p0 p1 p2 }
{
    let a = p1 - p0;
    let b = p2 - p0;
    a.x * b.y - a.y * b.x
}

// Whether p2 is neither in the place of p0 nor on the line through p0 and p1.
#[tactic(auto, using(crate::proofs::NearLine::small_square_is_near_line), unfolding(crate::specs::Line::off_line))]
fn off_line(p0: Pt2, p1: Pt2, p2: Pt2) -> bool
    ensures { result ≡ off_line p0 p1 p2 }
{
    if math::distance(p2, p0) <= 1e-9 {
        return false;
    }
    let c = cross(p0, p1, p2);
    // The squares decide most cases: a rounded square keeps the order of sizes.
    if c * c < 1e-6 * 1e-6 {
        return false;
    }
    float::abs(c) > 1e-6
}

fn any_off_line(points: &[f64], p0: Pt2, p1: Pt2) -> bool
    ensures { result ≡ any_off p0 p1 points.now }
{
    let pairs = points.as_chunks::<2>().0;
    pairs.iter().any(|&[x, y]| off_line(p0, p1, Pt2 { x, y }))
}

// Fewer than three points are never collinear.
#[tactic(auto, unfolding(crate::specs::Line::collinear_of, crate::specs::Line::along))]
fn collinear(points: &[f64]) -> bool
    ensures { result ≡ collinear_of points.now }
{
    if points.len() < 6 {
        return false;
    }
    let p0 = math::point_at(points, 0);
    let Some(p1) = first_distinct(points, p0) else {
        return true;
    };
    !any_off_line(points, p0, p1)
}

#[tactic(auto, unfolding(crate::specs::Line::line_reply))]
pub fn points_are_collinear(points: &[f64]) -> Result<bool, Refusal>
    ensures { result ≡ line_reply points.now }
{
    if points.len() % 2 != 0 {
        return Err(Refusal::BadPoints);
    }
    Ok(collinear(points))
}

// The two rows of one pair of points.
fn pair_rows(p: Pt2, q: Pt2) -> [[f64; 9]; 2]
    ensures { result ≡ first_row p q ∷ second_row p q ∷ [] }
{
    let Pt2 { x, y } = p;
    let Pt2 { x: u, y: v } = q;
    [
        [-x, -y, -1.0, 0.0, 0.0, 0.0, u * x, u * y, u],
        [0.0, 0.0, 0.0, -x, -y, -1.0, v * x, v * y, v],
    ]
}

// Points and where the homography takes them, pair by pair.
#[derive(Clone, Copy)]
pub struct Pairs<'a> {
    pub src: &'a [f64],
    pub dst: &'a [f64],
}

impl<'a> Pairs<'a> {
    // The rows of all pairs, each point moved by its list's similarity.
    fn put_rows(self, a: &mut [f64], ts: Similarity, td: Similarity)
        requires { (length self.dst.now ≡ length self.src.now) × (9 * length self.src.now ≤ length a.old) }
        ensures { a.new ≡ sets a.old 0 (design_rows ts td self.entry.src.now self.entry.dst.now) }
    {
        // Each pair's rows are written at their index, since after a loop over chunks_exact_mut a proof knows the
        // length of `a`, but not what it holds.
        let from = self.src.as_chunks::<2>().0;
        let to = self.dst.as_chunks::<2>().0;
        for (i, (&[x, y], &[u, v])) in from.iter().zip(to).enumerate() {
            let p = linalg::moved(ts, Pt2 { x, y });
            let q = linalg::moved(td, Pt2 { x: u, y: v });
            a[18 * i..18 * i + 18].copy_from_slice(pair_rows(p, q).as_flattened());
        }
    }

    // The refusals from too few points on.
    fn check_points(self) -> Result<(), Refusal>
        ensures { result ≡ first_refusal (point_conditions self.entry.src.now self.entry.dst.now) }
    {
        if self.src.len() < 8 {
            return Err(Refusal::TooFewPoints);
        }
        if self.dst.len() != self.src.len() {
            return Err(Refusal::CountsDiffer);
        }
        if collinear(self.src) {
            return Err(Refusal::SourceCollinear);
        }
        if collinear(self.dst) {
            return Err(Refusal::DestinationCollinear);
        }
        Ok(())
    }

    // All refusals, in their order. Of the list to be written only the length matters.
    fn check(self, room: usize) -> Result<(), Refusal>
        ensures { result ≡ rows_refusal self.entry.src.now self.entry.dst.now room }
    {
        if linalg::bad_points(self.src.len()) || linalg::bad_points(self.dst.len()) {
            return Err(Refusal::BadPoints);
        }
        if room < 9 * self.src.len() {
            return Err(Refusal::DestinationTooShort);
        }
        if !float::all_finite(self.src) {
            return Err(Refusal::SourceNotFinite);
        }
        if !float::all_finite(self.dst) {
            return Err(Refusal::DestinationNotFinite);
        }
        self.check_points()
    }
}

// The 2n × 9 design matrix of the homography from src to dst, row by row at the front of a.
#[tactic(auto, unfolding(crate::specs::Rows::rows_reply, crate::specs::Rows::rows_into))]
pub fn design_rows(pairs: Pairs, a: &mut [f64]) -> Result<(), Refusal>
    ensures reply { let p = pairs.entry in result ≡ rows_reply p.src.now p.dst.now (length a.old) }
    ensures written { let p = pairs.entry in a.new ≡ rows_into p.src.now p.dst.now a.old }
{
    pairs.check(a.len())?;
    let ts = linalg::normalizing(pairs.src);
    let td = linalg::normalizing(pairs.dst);
    pairs.put_rows(a, ts, td);
    Ok(())
}

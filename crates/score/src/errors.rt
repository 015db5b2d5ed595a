// The reprojection errors of the rows that the host sends, and their mean.
// Each function equals its rule, rounded operation by operation, for every input.

ghost use Rattle.std.specs.Prelude.{◌≡◌};
ghost use Rattle.score.specs.Rows.{rows_of, tilt_matrix, projected, error_sum, mean_of};
ghost use Rattle.score.specs.Steps.{add_error, with_row, add_all_rows};

use crate::blocks::add_blocks;
use crate::pinhole::PinholeCamera;
use crate::rows::{Rows, rows_of};
use camera::distortion::distort;
use camera::intrinsics::sensor_to_pixel;
use camera::math;
use camera::math::Pt2;
use camera::sensor::{TiltTrig, apply_homography, tilt_projection_matrix};

// An ideal point, the pixel where it was seen, and 1 if it lies in front of the camera, 0 if not. The rules are about
// lists of such rows; the host sends their numbers and their flags as two lists.
#[derive(Clone, Copy)]
pub struct Row {
    pub ideal: Pt2,
    pub seen: Pt2,
    pub flag: u8,
}

// What brings an ideal point to a pixel: the camera, and its sensor's tilt.
#[derive(Clone, Copy)]
pub(crate) struct Projection {
    pub(crate) camera: PinholeCamera,
    pub(crate) h: [[f64; 3]; 3],
}

// Running sum and count of reprojection errors.
#[derive(Clone, Copy, Default)]
pub struct ErrorSum {
    pub sum: f64,
    pub count: u64,
}

// The sum divided by the count, infinity where nothing was counted.
#[tactic(auto, using(crate::proofs::Steps::infinity_bits), unfolding(crate::specs::Rows::mean_of))]
pub fn mean_reproj_error(total: ErrorSum) -> f64
    ensures { result ≡ mean_of total }
{
    if total.count == 0 {
        return f64::INFINITY;
    }
    total.sum / std::num::nearest_u64_to_f64(total.count)
}

// The pixel of an ideal point. There is no short cut for radial coefficients of 0, since their factor is NaN where a
// power of the radius overflows.
#[tactic(auto, unfolding(crate::specs::Rows::projected))]
fn project_point(by: Projection, ideal: Pt2) -> Pt2
    ensures { result ≡ projected by.camera by.h ideal }
{
    sensor_to_pixel(
        by.camera.k,
        apply_homography(by.h, distort(by.camera.dist, ideal)),
    )
}

// Adds one more error, if it counts.
#[tactic(auto, unfolding(crate::specs::Steps::add_error))]
pub(crate) fn add_error(total: ErrorSum, counted: bool, err: f64) -> ErrorSum
    ensures { result ≡ add_error total counted err }
{
    if counted {
        return ErrorSum {
            sum: total.sum + err,
            count: total.count.wrapping_add(1),
        };
    }
    total
}

// The running sum and count with one more row. It counts if it lies in front of the camera and has a finite error, and isn't projected
// if it lies behind.
#[tactic(auto, unfolding(crate::specs::Steps::with_row, crate::specs::Steps::add_error, crate::specs::Rows::is_counted, crate::specs::Rows::row_error))]
fn with_row(total: ErrorSum, by: Projection, row: Row) -> ErrorSum
    ensures { result ≡ with_row by.camera by.h total row }
{
    if row.flag != 1 {
        return total;
    }
    let err = math::distance(project_point(by, row.ideal), row.seen);
    if float::is_finite(err) {
        return add_error(total, true, err);
    }
    total
}

// The step for one row: the running sum and count are lent to it, and it changes them.
fn add_row(total: &mut ErrorSum, by: Projection, row: Row)
    ensures { total.new ≡ with_row by.camera by.h total.old row }
{
    *total = with_row(*total, by, row);
}

// Adds some rows one by one. There are as many flags as fours; the flags are cut to that length all the same, so that
// one test a row ends the compiled loop.
#[tactic(auto, using(crate::proofs::Steps::add_rows_turns))]
pub(crate) fn add_rows(total: ErrorSum, by: Projection, rows: Rows) -> ErrorSum
    ensures { result ≡ add_all_rows total by rows.entry }
{
    let mut sum = total;
    let fours = rows.numbers.as_chunks::<4>().0;
    for (&[x, y, u, v], flag) in fours.iter().zip(&rows.flags[..fours.len()]) {
        let row = Row {
            ideal: Pt2 { x, y },
            seen: Pt2 { x: u, y: v },
            flag: *flag,
        };
        add_row(&mut sum, by, row);
    }
    sum
}

// Sum and count of the errors of all rows. Fewer than 8 rows are added one by one: a block isn't worth while for them.
// Inlined, so that camera and matrix aren't copied for a call.
#[tactic(auto, using(crate::proofs::Steps::add_rows_from_zero_is_error_sum))]
#[inline(always)]
pub fn reproj_error_sum(
    camera: PinholeCamera,
    h: [[f64; 3]; 3],
    rows: &[f64],
    flags: &[u8],
) -> ErrorSum
    ensures { result ≡ error_sum camera h (rows_of rows.now flags.now) }
{
    let by = Projection { camera, h };
    let all = rows_of(rows, flags);
    if 8 <= all.flags.len() {
        return add_blocks(ErrorSum::default(), by, all);
    }
    add_rows(ErrorSum::default(), by, all)
}

// The mean error of the rows, projected by the camera onto the tilted sensor.
#[tactic(auto, unfolding(crate::specs::Rows::tilt_matrix))]
pub fn mean_of_rows(camera: PinholeCamera, trig: TiltTrig, rows: &[f64], flags: &[u8]) -> f64
    ensures { result ≡ mean_of (error_sum camera (tilt_matrix trig) (rows_of rows.now flags.now)) }
{
    let h = tilt_projection_matrix(trig);
    mean_reproj_error(reproj_error_sum(camera, h, rows, flags))
}

// The rows in blocks of 16. The errors of a block come first, so that no row waits for another; then their sum in the rows' order. Where
// the sum is not finite, or few rows of a block lie in front of the camera, its rows are taken one by one.

ghost use Rattle.std.specs.Prelude.{◌≡◌, true, length, IfSome};
ghost use Rattle.score.specs.Steps.{add_all_rows, add_errors, one_in_front, in_front, Tilted, Depths, PointErrors, Errors};

use crate::errors::{ErrorSum, Projection, add_error, add_rows};
use crate::rows::{Block, Rows};
use camera::distortion::distort;
use camera::intrinsics::sensor_to_pixel;
use camera::math;
use camera::math::Pt2;
use camera::sensor::{forward_depth, row_at};

// Writes the rows' points on the tilted sensor, each coordinate to a list of its own: the first two not yet divided,
// the third not yet a depth. Here and below no row waits for another, and comparisons of floats have loops of their
// own: the compiler sets a fence (llvm.arithmetic.fence) before each comparison, LLVM doesn't vectorise a loop that has
// one, and it vectorises the others for two rows a turn. The loops index the lists that they fill, since after a loop
// over `iter_mut().zip(..)` a proof knows nothing of what a list holds. Each coordinate has a list of its own because
// in a model of these loops in C a block took 126 ns so, and 137 ns with a list of points.
fn tilt_points(
    xs: &mut [f64; 16],
    ys: &mut [f64; 16],
    zs: &mut [f64; 16],
    by: Projection,
    block: Block,
)
    ensures { Tilted by.camera by.h block.entry.rows.numbers.now (length block.entry.rows.flags.now) xs.new ys.new zs.new }
{
    let [top, middle, bottom] = by.h;
    for j in 0..block.rows.flags.len() {
        let p = distort(by.camera.dist, math::point_at(block.rows.numbers, 4 * j));
        xs[j] = row_at(top, p);
        ys[j] = row_at(middle, p);
        zs[j] = row_at(bottom, p);
    }
}

// Writes the depths of these points.
fn forward_depths(depths: &mut [f64; 16], zs: &[f64; 16])
    ensures { Depths 16 zs.now depths.new }
{
    for (j, depth) in depths.iter_mut().enumerate() {
        *depth = forward_depth(zs[j]);
    }
}

// Writes the errors of a block's rows, from the points and their depths.
fn point_errors(
    errors: &mut [f64],
    xs: &[f64; 16],
    ys: &[f64; 16],
    depths: &[f64; 16],
    by: Projection,
    block: Block,
)
    requires { length errors.old ≡ length block.rows.flags.now }
    ensures { PointErrors by.camera block.entry.rows.numbers.now (length block.entry.rows.flags.now) xs.now ys.now depths.now errors.new }
{
    for (j, error) in errors.iter_mut().enumerate() {
        let p = Pt2 {
            x: xs[j] / depths[j],
            y: ys[j] / depths[j],
        };
        let seen = math::point_at(block.rows.numbers, 4 * j + 2);
        *error = math::distance(sensor_to_pixel(by.camera.k, p), seen);
    }
}

// Writes the errors of a block's rows.
fn block_errors(errors: &mut [f64], by: Projection, block: Block)
    requires { length errors.old ≡ length block.rows.flags.now }
    ensures { Errors by.camera by.h block.entry.rows.numbers.now (length block.entry.rows.flags.now) errors.new }
{
    let mut xs = [0.0; 16];
    let mut ys = [0.0; 16];
    let mut zs = [0.0; 16];
    let mut depths = [0.0; 16];
    tilt_points(&mut xs, &mut ys, &mut zs, by, block);
    forward_depths(&mut depths, &zs);
    point_errors(errors, &xs, &ys, &depths, by, block);
}

// 1 for a row in front of the camera.
#[tactic(auto, unfolding(crate::specs::Steps::one_in_front))]
fn one_in_front(flag: u8) -> u8
    ensures { result ≡ one_in_front flag }
{
    (flag == 1).into()
}

// How many of a block's rows lie in front of the camera. With `filter` and `count` instead of the loop 900 rows take
// 18,246 instructions more, and 12,344 more where none lies in front.
#[tactic(auto, using(crate::proofs::Steps::in_front_turns))]
fn in_front(block: Block) -> u8
    ensures { result ≡ in_front block.entry.rows.flags.now (length block.entry.rows.flags.now) }
{
    let mut count: u8 = 0;
    for flag in block.rows.flags {
        count += one_in_front(*flag);
    }
    count
}

// Adds the errors of a block's rows, in their order, by the flags alone. No flag is looked at where ALL rows are known
// to lie in front of the camera.
#[tactic(auto, using(crate::proofs::Steps::add_errors_turns))]
fn add_flagged<const ALL: bool>(total: ErrorSum, flags: &[u8], errors: &[f64]) -> ErrorSum
    requires length { length errors.now ≡ length flags.now }
    requires all_in_front { ALL ≡ true → in_front flags.now (length flags.now) ≡ length flags.now }
    ensures { result ≡ add_errors total flags.now errors.now (length flags.now) }
{
    let mut sum = total;
    for (flag, error) in flags.iter().zip(errors) {
        let counted = ALL || *flag == 1;
        sum = add_error(sum, counted, *error);
    }
    sum
}

// Adds the errors of a block's rows, whichever of them lie in front of the camera.
fn add_errors(total: ErrorSum, block: Block, errors: &[f64]) -> ErrorSum
    requires { length errors.now ≡ length block.rows.flags.now }
    ensures { result ≡ add_errors total block.entry.rows.flags.now errors.now (length block.entry.rows.flags.now) }
{
    let flags = block.rows.flags;
    if in_front(block) as usize == flags.len() {
        return add_flagged::<true>(total, flags, errors);
    }
    add_flagged::<false>(total, flags, errors)
}

// Adds a block's rows, with all their errors worked out first. Where the sum is finite, each error that was added is,
// and so it counts. Otherwise there is no sum.
fn add_dense(total: ErrorSum, by: Projection, block: Block, errors: &mut [f64]) -> Option<ErrorSum>
    requires { length errors.old ≡ length block.rows.flags.now }
    ensures { IfSome result (λ s. s ≡ add_all_rows total by block.entry.rows) }
{
    block_errors(errors, by, block);
    let sum = add_errors(total, block, errors);
    if !float::is_finite(sum.sum) {
        return None;
    }
    Some(sum)
}

// Adds a block's rows one by one, and leaves the block out where none of them lies in front of the camera.
#[tactic(auto, using(crate::proofs::Steps::none_in_front_adds_nothing))]
fn add_sparse(total: ErrorSum, by: Projection, block: Block) -> ErrorSum
    ensures { result ≡ add_all_rows total by block.entry.rows }
{
    if in_front(block) == 0 {
        return total;
    }
    add_rows(total, by, block.rows)
}

// Adds a block's rows, whichever way is faster. `errors` has a place for each row.
fn add_block(total: ErrorSum, by: Projection, block: Block, errors: &mut [f64]) -> ErrorSum
    requires { length errors.old ≡ length block.rows.flags.now }
    ensures { result ≡ add_all_rows total by block.entry.rows }
{
    if 8 <= in_front(block) {
        if let Some(sum) = add_dense(total, by, block, errors) {
            return sum;
        }
    }
    add_sparse(total, by, block)
}

// Adds all rows, 16 at a time.
pub fn add_blocks(total: ErrorSum, by: Projection, rows: Rows) -> ErrorSum
    ensures { result ≡ add_all_rows total by rows.entry }
{
    let mut errors = [0.0; 16];
    let mut sum = total;
    for (numbers, flags) in rows.numbers.chunks(64).zip(rows.flags.chunks(16)) {
        let n = flags.len();
        let block = Block {
            rows: Rows { numbers, flags },
        };
        sum = add_block(sum, by, block, &mut errors[..n]);
    }
    sum
}

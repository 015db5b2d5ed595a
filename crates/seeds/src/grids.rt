// Round 0's list of seeds and a later round's.
// Each function equals its rule, for the reply and every number of the list.

ghost use Rattle.std.specs.Prelude.{◌≡◌, map, ◌+◌, ◌*◌, ◌/◌, ◌≤◌, length, Float};
ghost use Rattle.seeds.specs.Layout.{six, two, read_from, seeds_of, tilts_of, all_seeds, Leaves};
ghost use Rattle.seeds.specs.Pushed.{Pushed};
ghost use Rattle.seeds.specs.Merge.{merged_into, merged};
ghost use Rattle.seeds.specs.Rules as rules;
ghost use Rattle.seeds.specs.Rules.{tilts, pairs, seed_with, items_within, seed_grid, initial_list, next_list};
ghost use Rattle.seeds.specs.Typed.{TypedPairsApart};

use crate::CandidateSeed;
use crate::lists::{Item, Items};
use camera::intrinsics::FxFyCxCy;
use camera::sensor::ScheimpflugParams;

// ---- the pairs of two axes. The tilts along an axis are what a closure gives for its numbers: typed tilts as they
// are, or offsets added to a centre's tilt.

// Offers one x tilt with every y tilt, each pair within the bound as an entry.
fn push_row<E: Item, Y: Fn(f64) -> f64>(
    list: &mut Items<E>,
    beside: E::Beside,
    tilt_x: f64,
    y_numbers: &[f64],
    along_y: &Y,
    max_abs_tilt: f64,
)
    requires callable { Y.IsAlwaysCallable along_y.now }
    requires room { E.width * (list.old.count + length y_numbers.now) ≤ length list.old.numbers.now }
    ensures same_reference { list.new.numbers.ghost_name ≡ list.old.numbers.ghost_name }
    ensures same_length { length list.new.numbers.now ≡ length list.old.numbers.now }
    ensures few { list.new.count ≤ list.old.count + length y_numbers.now }
    ensures pushed { (f : Float → Float) → ((n t : Float) → Y.post along_y.now n t → t ≡ f n) → Leaves E.numbers E.width (merged_into E.near (read_from E.first E.width list.old.count list.old.numbers.now) (items_within (E.tilted beside) max_abs_tilt (map (tilts tilt_x) (map f y_numbers.now)))) list.old.numbers.now list.new.numbers.now list.new.count }
{
    for number in y_numbers {
        let tilts = ScheimpflugParams {
            tilt_x,
            tilt_y: along_y(*number),
        };
        list.push_in_bound(beside, tilts, max_abs_tilt);
    }
}

// Writes the pairs of every x tilt with every y tilt, x outer, that lie within the bound, merged. Returns their number.
fn push_pairs<E: Item, X: Fn(f64) -> f64, Y: Fn(f64) -> f64>(
    numbers: &mut [f64],
    beside: E::Beside,
    x_numbers: &[f64],
    along_x: X,
    y_numbers: &[f64],
    along_y: Y,
    max_abs_tilt: f64,
) -> usize
    requires x_callable { X.IsAlwaysCallable along_x }
    requires y_callable { Y.IsAlwaysCallable along_y }
    requires room { E.width * (length x_numbers.now * length y_numbers.now) ≤ length numbers.old }
    ensures { (f g : Float → Float) → ((n t : Float) → X.post along_x n t → t ≡ f n) → ((n t : Float) → Y.post along_y n t → t ≡ g n) → Leaves E.numbers E.width (merged E.near (items_within (E.tilted beside) max_abs_tilt (pairs (map f x_numbers.now) (map g y_numbers.now)))) numbers.old numbers.new result }
{
    let mut list = Items::<E>::new(numbers);
    for number in x_numbers {
        push_row(
            &mut list,
            beside,
            along_x(*number),
            y_numbers,
            &along_y,
            max_abs_tilt,
        );
    }
    list.count
}

// ---- a later round's list

// Writes the seeds at the offsets around a centre, x outer, with the camera found there, that lie within the bound,
// merged. Returns how many they are.
pub fn local_seed_grid(
    reference_k: FxFyCxCy,
    center: ScheimpflugParams,
    offsets_x: &[f64],
    offsets_y: &[f64],
    max_abs_tilt: f64,
    seeds: &mut [f64],
) -> usize
    requires { 6 * (length offsets_x.now * length offsets_y.now) ≤ length seeds.old }
    ensures { Leaves six 6 (next_list offsets_x.now offsets_y.now center reference_k max_abs_tilt) seeds.old seeds.new result }
{
    push_pairs::<CandidateSeed, _, _>(
        seeds,
        reference_k,
        offsets_x,
        |offset| center.tilt_x + offset,
        offsets_y,
        |offset| center.tilt_y + offset,
        max_abs_tilt,
    )
}

// ---- round 0's list

// Writes the pairs of typed tilts, x outer, that lie within the bound, merged by tilt alone. Returns how many they are.
fn seed_grid(x_seeds: &[f64], y_seeds: &[f64], max_abs_tilt: f64, grid: &mut [f64]) -> usize
    requires { 2 * (length x_seeds.now * length y_seeds.now) ≤ length grid.old }
    ensures { Leaves two 2 (seed_grid x_seeds.now y_seeds.now max_abs_tilt) grid.old grid.new result }
{
    push_pairs::<ScheimpflugParams, _, _>(
        grid,
        (),
        x_seeds,
        |tilt| tilt,
        y_seeds,
        |tilt| tilt,
        max_abs_tilt,
    )
}

// Offers the decomposition seeds in their order.
fn push_solved(list: &mut Items<CandidateSeed>, decomposition: &[f64])
    requires { 6 * (list.old.count + length decomposition.now / 6) ≤ length list.old.numbers.now }
    ensures { Pushed six 6 (merged_into rules.near (seeds_of list.old.count list.old.numbers.now) (all_seeds decomposition.now)) list.old list.new }
{
    for i in 0..decomposition.len() / 6 {
        list.push(CandidateSeed::at(decomposition, i));
    }
}

// Offers typed tilts, none of which is near another, as seeds with the base camera, in their order. Seeds that were
// kept of them aren't near a later one either, so only the seeds that were kept before them are compared.
fn push_typed(list: &mut Items<CandidateSeed>, grid: &[f64], number: usize, base_k: FxFyCxCy)
    requires room { (2 * number ≤ length grid.now) × (6 * (list.old.count + number) ≤ length list.old.numbers.now) }
    requires apart { TypedPairsApart (tilts_of number grid.now) }
    ensures { Pushed six 6 (merged_into rules.near (seeds_of list.old.count list.old.numbers.now) (map (seed_with base_k) (tilts_of number grid.now))) list.old list.new }
{
    let before = list.count;
    for i in 0..number {
        let seed = CandidateSeed::with_tilts(base_k, ScheimpflugParams::at(grid, i));
        list.push_among(seed, before);
    }
}

// Writes the decomposition seeds, then the typed tilts with the base camera, merged. Returns how many they are. The
// grid is merged by tilt first, in an array of its own: a pair that is dropped there doesn't come back, even where the
// pair that it was near is dropped here.
pub fn initial_seed_grid(
    decomposition: &[f64],
    x_seeds: &[f64],
    y_seeds: &[f64],
    base_k: FxFyCxCy,
    max_abs_tilt: f64,
    seeds: &mut [f64],
) -> usize
    requires x_seeds_len_bound { (length x_seeds.now ≤ 16) × (length y_seeds.now ≤ 16) }
    requires y_seeds_in_bounds { 6 * (length decomposition.now / 6 + length x_seeds.now * length y_seeds.now) ≤ length seeds.old }
    ensures { Leaves six 6 (initial_list (all_seeds decomposition.now) x_seeds.now y_seeds.now base_k max_abs_tilt) seeds.old seeds.new result }
{
    let mut grid = [0.0; 512];
    let number = seed_grid(x_seeds, y_seeds, max_abs_tilt, &mut grid);
    let mut list = Items::<CandidateSeed>::new(seeds);
    push_solved(&mut list, decomposition);
    push_typed(&mut list, &grid, number, base_k);
    list.count
}

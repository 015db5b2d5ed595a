// Start opens a run: it refuses bad options, and writes round 0's list to the front of the lent list.

ghost use Rattle.std.specs.Prelude.{◌≡◌, length, Bool};
ghost use Rattle.common.specs.Checks.{first_refusal};
ghost use Rattle.common.specs.Each.{every};
ghost use Rattle.seeds.specs.declared.CandidateSeed.{CandidateSeed};
ghost use Rattle.seeds.specs.Layout.{all_seeds};
ghost use Rattle.search.specs.StartLaws.{Sizes};
ghost use Rattle.search.specs.Start.{positive, good_seed, only_zero, untilted_seed, too_many, start_demand, opening_of, options_checks, lists_checks, last_checks, further_checks, start_reply, start_list};

use crate::run::{Options, Place, Run};
use camera::intrinsics::FxFyCxCy;
use camera::math::Pt2;
use common::Refusal;
use seeds::CandidateSeed;

// What Start takes: how many views there are, the options, the typed tilts, the decomposition seeds in sixes, the base
// camera, and the observed centre. The definitions take these seven one by one, since they are of lists: this record
// borrows slices, and a record of lists would have to be made of it in each clause.
#[derive(Clone, Copy)]
pub struct Inputs<'a> {
    pub views: usize,
    pub options: Options,
    pub tilt_x_seeds: &'a [f64],
    pub tilt_y_seeds: &'a [f64],
    pub decomposition: &'a [f64],
    pub base: FxFyCxCy,
    pub center: Pt2,
}

fn is_positive(x: f64) -> bool
    ensures { result ≡ positive x }
{
    float::is_finite(x) & (0.0 < x)
}

// Finite numbers, focal lengths above 0, tilts within the bound.
#[tactic(auto, unfolding(crate::specs::Start::good_seed))]
fn is_good_seed(max_abs_tilt: f64, seed: CandidateSeed) -> bool
    ensures { result ≡ good_seed max_abs_tilt seed }
{
    let k = seed.reference_k;
    let t = seed.sensor;
    is_positive(k.fx)
        & is_positive(k.fy)
        & float::all_finite(&[k.cx, k.cy, t.tilt_x, t.tilt_y])
        & seeds::checks::in_bound(max_abs_tilt, t)
}

// Whether each seed of a decomposition passes the test.
fn all_seeds<F: Fn(CandidateSeed) -> bool>(decomposition: &[f64], test: F) -> bool
    requires { F.IsAlwaysCallable test }
    ensures { (f : CandidateSeed → Bool) → ((s : CandidateSeed) (b : Bool) → F.post test s b → b ≡ f s) → result ≡ every f (all_seeds decomposition.now) }
{
    decomposition
        .as_chunks::<6>()
        .0
        .iter()
        .map(|six| CandidateSeed::from(*six))
        .all(test)
}

// A single value, a zero of either sign.
#[tactic(auto, unfolding(crate::specs::Start::only_zero))]
fn is_only_zero(numbers: &[f64]) -> bool
    ensures { result ≡ only_zero numbers.now }
{
    if numbers.len() != 1 {
        return false;
    }
    numbers[0] == 0.0
}

#[tactic(auto, unfolding(seeds::specs::Rules::untilted_y))]
fn is_untilted_seed(seed: CandidateSeed) -> bool
    ensures { result ≡ untilted_seed seed }
{
    seed.sensor.tilt_y == 0.0
}

impl Inputs<'_> {
    // More seeds or rounds than a run can have, or a decomposition that isn't in sixes.
    #[tactic(auto, unfolding(crate::specs::Start::too_many))]
    fn is_too_many(self) -> bool
        ensures { let i = self.entry in result ≡ too_many (length i.tilt_x_seeds.now) (length i.tilt_y_seeds.now) (length i.decomposition.now) i.options.refine_rounds }
    {
        (16 < self.tilt_x_seeds.len())
            | (16 < self.tilt_y_seeds.len())
            | (256 < self.decomposition.len() / 6)
            | (16 < self.options.refine_rounds)
            | (self.decomposition.len() % 6 != 0)
    }

    // What the lent list must hold: a later round's nine seeds, and every seed that round 0 can have.
    #[tactic(auto, unfolding(crate::specs::Start::demand_of))]
    fn demand(self) -> usize
        requires { Sizes (length self.tilt_x_seeds.now) (length self.tilt_y_seeds.now) (length self.decomposition.now) self.options.refine_rounds }
        ensures { let i = self.entry in result ≡ start_demand i.views i.options i.tilt_x_seeds.now i.tilt_y_seeds.now i.decomposition.now }
    {
        let grid = self.tilt_x_seeds.len() * self.tilt_y_seeds.len();
        (6 * (self.decomposition.len() / 6 + grid)).max(54)
    }
}

// Start's first refusals: those of the options and of the lists' lengths.
fn options_refusal(inputs: Inputs) -> Result<(), Refusal>
    ensures { let i = inputs.entry in result ≡ first_refusal (options_checks i.views i.options (length i.tilt_x_seeds.now) (length i.tilt_y_seeds.now) (length i.decomposition.now)) }
{
    let options = inputs.options;
    if inputs.views < 3 {
        return Err(Refusal::TooFewViews);
    }
    if inputs.tilt_x_seeds.is_empty() | inputs.tilt_y_seeds.is_empty() {
        return Err(Refusal::NoTilts);
    }
    if !is_positive(options.max_abs_tilt) {
        return Err(Refusal::BadBound);
    }
    if (0 < options.refine_rounds) & !is_positive(options.refine_step) {
        return Err(Refusal::BadStep);
    }
    if inputs.is_too_many() {
        return Err(Refusal::TooMany);
    }
    Ok(())
}

// Start's last refusals: what a run about one axis can't have, and a share above 100 per cent.
fn last_refusal(inputs: Inputs) -> Result<(), Refusal>
    ensures { let i = inputs.entry in result ≡ first_refusal (last_checks i.options i.tilt_y_seeds.now i.decomposition.now) }
{
    let options = inputs.options;
    if options.one_axis & !is_only_zero(inputs.tilt_y_seeds) {
        return Err(Refusal::TiltsOffAxis);
    }
    if options.one_axis & !all_seeds(inputs.decomposition, is_untilted_seed) {
        return Err(Refusal::SeedOffAxis);
    }
    if 100 < options.min_counted {
        return Err(Refusal::ShareTooLarge);
    }
    Ok(())
}

// Start's refusals after those of the lent list: a bound above 0.5, and then the last ones.
fn further_refusal(inputs: Inputs) -> Result<(), Refusal>
    ensures { let i = inputs.entry in result ≡ first_refusal (further_checks i.options i.tilt_y_seeds.now i.decomposition.now) }
{
    let options = inputs.options;
    if 0.5 < options.max_abs_tilt {
        return Err(Refusal::TiltTooLarge);
    }
    last_refusal(inputs)
}

// Start's refusals after those of the options, for a lent list with this many numbers, where a run demands this many.
// No more than its length is read of the list.
fn lists_refusal(inputs: Inputs, demand: usize, list_len: usize) -> Result<(), Refusal>
    requires { demand ≡ start_demand inputs.views inputs.options inputs.tilt_x_seeds.now inputs.tilt_y_seeds.now inputs.decomposition.now }
    ensures { let i = inputs.entry in result ≡ first_refusal (lists_checks i.views i.options i.tilt_x_seeds.now i.tilt_y_seeds.now i.decomposition.now list_len) }
{
    let max_abs_tilt = inputs.options.max_abs_tilt;
    if !all_seeds(
        inputs.decomposition,
        |seed| is_good_seed(max_abs_tilt, seed),
    ) {
        return Err(Refusal::BadSeed);
    }
    if !(float::all_finite(inputs.tilt_x_seeds) & float::all_finite(inputs.tilt_y_seeds)) {
        return Err(Refusal::TiltNotFinite);
    }
    if list_len < demand {
        return Err(Refusal::ListTooShort);
    }
    further_refusal(inputs)
}

// The accepted run with this many seeds in round 0's list: over at once where there are none, and with nothing handed out or answered yet.
#[tactic(auto, unfolding(crate::specs::Start::opening_of, score::specs::Best::no_best))]
fn opening(options: Options, center: Pt2, demand: usize, len: usize) -> Run
    ensures { result ≡ opening_of options center demand len }
{
    Run {
        options,
        center,
        place: Place {
            demand,
            len,
            over: len == 0,
            ..Place::default()
        },
        ..Run::default()
    }
}

pub fn start(inputs: Inputs, list: &mut [f64]) -> Result<Run, Refusal>
    ensures value { let i = inputs.entry in result ≡ start_reply i.views i.options i.tilt_x_seeds.now i.tilt_y_seeds.now i.decomposition.now i.base i.center list.old }
    ensures list_after { let i = inputs.entry in list.new ≡ start_list i.views i.options i.tilt_x_seeds.now i.tilt_y_seeds.now i.decomposition.now i.base i.center list.old }
{
    options_refusal(inputs)?;
    let demand = inputs.demand();
    lists_refusal(inputs, demand, list.len())?;
    let len = seeds::grids::initial_seed_grid(
        inputs.decomposition,
        inputs.tilt_x_seeds,
        inputs.tilt_y_seeds,
        inputs.base,
        inputs.options.max_abs_tilt,
        list,
    );
    Ok(opening(inputs.options, inputs.center, demand, len))
}

// Entries in a lent list of numbers, and merging: one that lies near a kept one is not kept.
// Each function equals its rule, for the reply and every number of the list.

ghost use Rattle.std.specs.Prelude.{◌≡◌, ◌∷◌, [], ◌+◌, ◌*◌, ◌≤◌, ◌<◌, length, ℕ, Bool, false, List, Float, drop};
ghost use Rattle.std.proofs.Common.{lit<};
ghost use Rattle.std.proofs.lemmas.List.Edits.{sets};
ghost use Rattle.camera.specs.declared.sensor.ScheimpflugParams.{ScheimpflugParams};
ghost use Rattle.seeds.specs.Pushed.{Pushed};
ghost use Rattle.seeds.specs.Layout.{six, seed_at, two, tilts_at, read_from};
ghost use Rattle.seeds.specs.LayoutLaws.{Layout, seeds_layout, tilts_layout};
ghost use Rattle.seeds.specs.Merge.{has_near, newest_near, push, merged_into};
ghost use Rattle.seeds.specs.Rules as rules;
ghost use Rattle.seeds.specs.Rules.{tilt_near, seed_with, items_within};

use crate::CandidateSeed;
use crate::checks::{in_bound, near, tilt_near};
use camera::intrinsics::FxFyCxCy;
use camera::sensor::ScheimpflugParams;
use std::marker::PhantomData;

// What lies entry after entry at the front of a list of numbers: seeds, of six numbers each, or pairs of tilts, of two.
pub trait Item: Copy {
    // What an entry has beside its tilts; for a seed this is its camera.
    type Beside: Copy;

    // How many numbers an entry has, and which.
    ghost width: { ℕ };

    ghost numbers: { Self → List Float };

    // The entry that a list begins with.
    ghost first: { List Float → Self };

    ghost near: { Self → Self → Bool };

    // The entry that tilts make with what is beside them.
    ghost tilted: { Self.Beside → ScheimpflugParams → Self };

    fn at(list: &[f64], i: usize) -> Self
        requires { width * i + width ≤ length list.now }
        ensures { result ≡ first (drop (width * i) list.now) };

    fn put(self, list: &mut [f64], i: usize)
        requires { width * i + width ≤ length list.old }
        ensures { list.new ≡ sets list.old (width * i) (numbers self) };

    fn is_near(self, other: Self) -> bool
        ensures { result ≡ near self other };

    fn with_tilts(beside: Self::Beside, tilts: ScheimpflugParams) -> Self
        ensures { result ≡ tilted beside tilts };

    // What is written is read back, and an entry has a number at least.
    ghost lies: { Layout numbers first width };

    ghost wide: { 0 < width };
}

#[tactic(auto, using(crate::specs::Chunks::seed_in_chunks))]
pub fn seed_at(seeds: &[f64], i: usize) -> CandidateSeed
    requires { 6 * i + 6 ≤ length seeds.now }
    ensures { result ≡ seed_at seeds.now i }
{
    seeds.as_chunks::<6>().0[i].into()
}

impl Item for CandidateSeed {
    type Beside = FxFyCxCy;

    ghost width = { 6 };

    ghost numbers = { six };

    ghost first = { λ l. seed_at l 0 };

    ghost near = { rules.near };

    ghost tilted = { seed_with };

    ghost lies = { seeds_layout };

    ghost wide = { lit< tt };

    fn at(seeds: &[f64], i: usize) -> CandidateSeed {
        seed_at(seeds, i)
    }

    fn put(self, seeds: &mut [f64], i: usize) {
        let numbers: [f64; 6] = self.into();
        seeds[6 * i..6 * i + 6].copy_from_slice(&numbers);
    }

    fn is_near(self, other: CandidateSeed) -> bool {
        near(self, other)
    }

    fn with_tilts(reference_k: FxFyCxCy, sensor: ScheimpflugParams) -> CandidateSeed {
        CandidateSeed {
            reference_k,
            sensor,
        }
    }
}

impl Item for ScheimpflugParams {
    type Beside = ();

    ghost width = { 2 };

    ghost numbers = { two };

    ghost first = { λ l. tilts_at l 0 };

    ghost near = { tilt_near };

    ghost tilted = { λ nothing t. t };

    ghost lies = { tilts_layout };

    ghost wide = { lit< tt };

    fn at(grid: &[f64], i: usize) -> ScheimpflugParams {
        let at = 2 * i;
        ScheimpflugParams {
            tilt_x: grid[at],
            tilt_y: grid[at + 1],
        }
    }

    fn put(self, grid: &mut [f64], i: usize) {
        let at = 2 * i;
        grid[at] = self.tilt_x;
        grid[at + 1] = self.tilt_y;
    }

    fn is_near(self, other: ScheimpflugParams) -> bool {
        tilt_near(self, other)
    }

    fn with_tilts(_beside: (), tilts: ScheimpflugParams) -> ScheimpflugParams {
        tilts
    }
}

// A list of entries at the front of lent numbers, and how many there are. The library has no heap.
#[derive(Drop)]
pub struct Items<'a, E> {
    pub numbers: &'a mut [f64],
    pub count: usize,
    of: PhantomData<E>,
}

impl<'a, E: Item> Items<'a, E> {
    pub fn new(numbers: &'a mut [f64]) -> Items<'a, E>
        ensures same_reference { result.numbers.ghost_name ≡ numbers.entry.ghost_name }
        ensures same_numbers { result.numbers.now ≡ numbers.old }
        ensures none_kept { result.count ≡ 0 }
    {
        Items {
            numbers,
            count: 0,
            of: PhantomData,
        }
    }

    // The place of the newest of the first `among` kept entries that is near this one. The search goes from the last
    // one back, since decomposition seeds lie close to their predecessors. `push_among` asks only whether there is one;
    // the place is returned because the rule names it (docs/SPECIFICATION.md, 4.4).
    fn find_near(&self, item: E, among: usize) -> Option<usize>
        requires { E.width * among ≤ length self.now.numbers.now }
        ensures { result ≡ newest_near E.near 0 (read_from E.first E.width among self.now.numbers.now) item }
    {
        (0..among)
            .rev()
            .find(|i| E::at(self.numbers, *i).is_near(item))
    }

    // Puts an entry behind the kept ones, unless one of them is near it. Only the first `among` of them are compared:
    // the others are known not to be near.
    pub fn push_among(&mut self, item: E, among: usize)
        requires room { E.width * self.old.count + E.width ≤ length self.old.numbers.now }
        requires kept { among ≤ self.old.count }
        requires others_far { has_near E.near (drop among (read_from E.first E.width self.old.count self.old.numbers.now)) item ≡ false }
        ensures { Pushed E.numbers E.width (push E.near (read_from E.first E.width self.old.count self.old.numbers.now) item) self.old self.new }
    {
        if self.find_near(item, among).is_some() {
            return;
        }
        item.put(self.numbers, self.count);
        self.count += 1;
    }

    // Puts an entry behind the kept ones, unless one of them is near it.
    pub fn push(&mut self, item: E)
        requires { E.width * self.old.count + E.width ≤ length self.old.numbers.now }
        ensures { Pushed E.numbers E.width (push E.near (read_from E.first E.width self.old.count self.old.numbers.now) item) self.old self.new }
    {
        let all = self.count;
        self.push_among(item, all);
    }

    // Pushes a pair of tilts, with what is beside it, unless it lies beyond the bound.
    pub fn push_in_bound(&mut self, beside: E::Beside, tilts: ScheimpflugParams, max_abs_tilt: f64)
        requires { E.width * self.old.count + E.width ≤ length self.old.numbers.now }
        ensures { Pushed E.numbers E.width (merged_into E.near (read_from E.first E.width self.old.count self.old.numbers.now) (items_within (E.tilted beside) max_abs_tilt (tilts ∷ []))) self.old self.new }
    {
        if in_bound(max_abs_tilt, tilts) {
            self.push(E::with_tilts(beside, tilts));
        }
    }
}

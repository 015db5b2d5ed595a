// Next hands out the list's next seed, and the seed call beside it returns that seed's six numbers as a part of the caller's list.

ghost use Rattle.std.specs.Prelude.{◌≡◌};
ghost use Rattle.search.specs.Next.{next_refusal, next_def, seed_lent, seed_part};

use crate::run::{Reply, Run, awaiting, is_sound};
use common::Refusal;

// What Next hands out: the candidate's number, or Over, where the run is over and has a winner. It is no Option, since
// Over is a reply.
#[derive(Clone, Copy)]
pub enum Handed {
    Candidate(usize),
    Over,
}

pub type NextReply = Reply<Handed>;

// Next's refusals, of which the first that holds is returned. The record and its list are two parameters, here and
// below, since C keeps them apart; the refusals read no more of the list than its length.
fn next_refusal(run: Run, list_len: usize) -> Result<(), Refusal>
    ensures { result ≡ next_refusal run list_len }
{
    if !is_sound(run) {
        return Err(Refusal::NothingScored);
    }
    if run.waiting.is_waiting {
        return Err(Refusal::SeedWaiting);
    }
    run.list_refusal(list_len)?;
    if run.place.over & !run.run_best.found {
        return Err(Refusal::NothingScored);
    }
    Ok(())
}

pub fn next(run: Run, list: &[f64]) -> NextReply
    ensures { result ≡ next_def run list.now }
{
    if let Err(refusal) = next_refusal(run, list.len()) {
        return NextReply {
            reply: Err(refusal),
            run,
        };
    }
    if run.place.over {
        return NextReply {
            reply: Ok(Handed::Over),
            run,
        };
    }
    NextReply {
        reply: Ok(Handed::Candidate(run.place.number)),
        run: awaiting(run, seeds::lists::seed_at(list, run.place.at)),
    }
}

// Whether a seed waits, and the list is long enough.
#[tactic(auto, unfolding(crate::specs::Next::seed_lent))]
fn is_seed_lent(run: Run, list_len: usize) -> bool
    ensures { result ≡ seed_lent run list_len }
{
    is_sound(run) & run.waiting.is_waiting & run.list_refusal(list_len).is_ok()
}

// The waiting seed's six numbers as they stand in the caller's list, or an empty part, which C gets as 0 numbers.
pub fn seed(run: Run, list: &[f64]) -> &[f64]
    ensures { result.now ≡ seed_part run list.now }
{
    if !is_seed_lent(run, list.len()) {
        return &list[0..0];
    }
    let from = 6 * run.place.at;
    let to = from + 6;
    &list[from..to]
}

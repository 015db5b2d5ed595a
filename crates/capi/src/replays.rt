// A journal run again without a host, and a run that goes on from a journal: both take what Start takes, and the bytes
// of the journal. C lends each list by itself, so each function has nine parameters.
ghost use Rattle.std.specs.Prelude.{◌≡◌};
ghost use Rattle.replay.specs.Replay.{replay_def};
ghost use Rattle.replay.specs.Resume.{resume_def};
ghost use Rattle.capi_records.specs.Record.{options_from};
ghost use Rattle.capi_records.specs.Replay.{flat_replayed, flat_resumed};

use camera::intrinsics::FxFyCxCy;
use camera::math::Pt2;
use capi_records::record::OptionsRecord;
use capi_records::replays::{ReplayFlat, ResumeFlat};
use replay::replay::replay;
use replay::resume::resume;
use search::start::Inputs;

// Replay: the winner or the seed that comes next, and the lent list as the lines leave it.
#[unsafe(no_mangle)]
pub extern "C" fn jc_replay(
    views: usize,
    options: OptionsRecord,
    tilt_x_seeds: &[f64],
    tilt_y_seeds: &[f64],
    decomposition: &[f64],
    base: FxFyCxCy,
    center: Pt2,
    bytes: &[u8],
    list: &mut [f64],
) -> ReplayFlat
    ensures reply { result ≡ flat_replayed (replay_def views (options_from options) tilt_x_seeds.now tilt_y_seeds.now decomposition.now base center list.old bytes.now).reply }
    ensures written { list.new ≡ (replay_def views (options_from options) tilt_x_seeds.now tilt_y_seeds.now decomposition.now base center list.old bytes.now).list }
{
    let inputs = Inputs {
        views,
        options: options.into(),
        tilt_x_seeds,
        tilt_y_seeds,
        decomposition,
        base,
        center,
    };
    replay(inputs, bytes, list).into()
}

// Resume: the run and the lent list as the kept lines leave them, and what was kept.
#[unsafe(no_mangle)]
pub extern "C" fn jc_resume(
    views: usize,
    options: OptionsRecord,
    tilt_x_seeds: &[f64],
    tilt_y_seeds: &[f64],
    decomposition: &[f64],
    base: FxFyCxCy,
    center: Pt2,
    bytes: &[u8],
    list: &mut [f64],
) -> ResumeFlat
    ensures reply { result ≡ flat_resumed (resume_def views (options_from options) tilt_x_seeds.now tilt_y_seeds.now decomposition.now base center list.old bytes.now).reply }
    ensures written { list.new ≡ (resume_def views (options_from options) tilt_x_seeds.now tilt_y_seeds.now decomposition.now base center list.old bytes.now).list }
{
    let inputs = Inputs {
        views,
        options: options.into(),
        tilt_x_seeds,
        tilt_y_seeds,
        decomposition,
        base,
        center,
    };
    resume(inputs, bytes, list).into()
}

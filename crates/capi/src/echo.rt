// Each function returns its struct as it came. With these a caller in another language tests that both sides lay the
// struct out alike. C has no generic functions, so there is one for each struct.
ghost use Rattle.std.specs.Prelude.{◌≡◌};

use camera::distortion::{BrownConrady5, DistortedPoint, Jacobian};
use camera::intrinsics::FxFyCxCy;
use camera::math::Pt2;
use camera::sensor::{ScheimpflugParams, TiltTrig};
use capi_records::cameras::{CameraReply, InverseReply, Matrix3, SumReply};
use capi_records::journals::{LineRecord, ReadReply, WriteReply};
use capi_records::lists::{CenterReply, LineReply, NormalizeReply};
use capi_records::plate::PlateReply;
use capi_records::record::{
    BestRecord, LastRecord, OptionsRecord, PlaceRecord, RunRecord, WaitingRecord,
};
use capi_records::replays::{ReplayFlat, ResumeFlat};
use capi_records::run::{AnswerFlat, NextFlat, ResultFlat, StartFlat, StopFlat};
use capi_records::scoring::ErrorCountReply;
use journal::Counts;
use score::best::Candidate;
use score::pinhole::PinholeCamera;
use search::progress::ProgressReply;
use seeds::CandidateSeed;
use zhang::Conic;

#[unsafe(no_mangle)]
pub extern "C" fn jc_echo_pt2(x: Pt2) -> Pt2
    ensures { result ≡ x }
{
    x
}

#[unsafe(no_mangle)]
pub extern "C" fn jc_echo_intrinsics(x: FxFyCxCy) -> FxFyCxCy
    ensures { result ≡ x }
{
    x
}

#[unsafe(no_mangle)]
pub extern "C" fn jc_echo_distortion(x: BrownConrady5) -> BrownConrady5
    ensures { result ≡ x }
{
    x
}

#[unsafe(no_mangle)]
pub extern "C" fn jc_echo_jacobian(x: Jacobian) -> Jacobian
    ensures { result ≡ x }
{
    x
}

#[unsafe(no_mangle)]
pub extern "C" fn jc_echo_distorted_point(x: DistortedPoint) -> DistortedPoint
    ensures { result ≡ x }
{
    x
}

#[unsafe(no_mangle)]
pub extern "C" fn jc_echo_scheimpflug_params(x: ScheimpflugParams) -> ScheimpflugParams
    ensures { result ≡ x }
{
    x
}

#[unsafe(no_mangle)]
pub extern "C" fn jc_echo_trig(x: TiltTrig) -> TiltTrig
    ensures { result ≡ x }
{
    x
}

#[unsafe(no_mangle)]
pub extern "C" fn jc_echo_pinhole_camera(x: PinholeCamera) -> PinholeCamera
    ensures { result ≡ x }
{
    x
}

#[unsafe(no_mangle)]
pub extern "C" fn jc_echo_sum_reply(x: SumReply) -> SumReply
    ensures { result ≡ x }
{
    x
}

#[unsafe(no_mangle)]
pub extern "C" fn jc_echo_conic(x: Conic) -> Conic
    ensures { result ≡ x }
{
    x
}

#[unsafe(no_mangle)]
pub extern "C" fn jc_echo_candidate_seed(x: CandidateSeed) -> CandidateSeed
    ensures { result ≡ x }
{
    x
}

#[unsafe(no_mangle)]
pub extern "C" fn jc_echo_candidate(x: Candidate) -> Candidate
    ensures { result ≡ x }
{
    x
}

#[unsafe(no_mangle)]
pub extern "C" fn jc_echo_options(x: OptionsRecord) -> OptionsRecord
    ensures { result ≡ x }
{
    x
}

#[unsafe(no_mangle)]
pub extern "C" fn jc_echo_matrix(x: Matrix3) -> Matrix3
    ensures { result ≡ x }
{
    x
}

#[unsafe(no_mangle)]
pub extern "C" fn jc_echo_inverse_reply(x: InverseReply) -> InverseReply
    ensures { result ≡ x }
{
    x
}

#[unsafe(no_mangle)]
pub extern "C" fn jc_echo_camera_reply(x: CameraReply) -> CameraReply
    ensures { result ≡ x }
{
    x
}

#[unsafe(no_mangle)]
pub extern "C" fn jc_echo_error_count_reply(x: ErrorCountReply) -> ErrorCountReply
    ensures { result ≡ x }
{
    x
}

#[unsafe(no_mangle)]
pub extern "C" fn jc_echo_plate_reply(x: PlateReply) -> PlateReply
    ensures { result ≡ x }
{
    x
}

#[unsafe(no_mangle)]
pub extern "C" fn jc_echo_normalize_reply(x: NormalizeReply) -> NormalizeReply
    ensures { result ≡ x }
{
    x
}

#[unsafe(no_mangle)]
pub extern "C" fn jc_echo_line_reply(x: LineReply) -> LineReply
    ensures { result ≡ x }
{
    x
}

#[unsafe(no_mangle)]
pub extern "C" fn jc_echo_center_reply(x: CenterReply) -> CenterReply
    ensures { result ≡ x }
{
    x
}

#[unsafe(no_mangle)]
pub extern "C" fn jc_echo_place_record(x: PlaceRecord) -> PlaceRecord
    ensures { result ≡ x }
{
    x
}

#[unsafe(no_mangle)]
pub extern "C" fn jc_echo_waiting_record(x: WaitingRecord) -> WaitingRecord
    ensures { result ≡ x }
{
    x
}

#[unsafe(no_mangle)]
pub extern "C" fn jc_echo_best_record(x: BestRecord) -> BestRecord
    ensures { result ≡ x }
{
    x
}

#[unsafe(no_mangle)]
pub extern "C" fn jc_echo_run_record(x: RunRecord) -> RunRecord
    ensures { result ≡ x }
{
    x
}

#[unsafe(no_mangle)]
pub extern "C" fn jc_echo_start_flat(x: StartFlat) -> StartFlat
    ensures { result ≡ x }
{
    x
}

#[unsafe(no_mangle)]
pub extern "C" fn jc_echo_next_flat(x: NextFlat) -> NextFlat
    ensures { result ≡ x }
{
    x
}

#[unsafe(no_mangle)]
pub extern "C" fn jc_echo_answer_flat(x: AnswerFlat) -> AnswerFlat
    ensures { result ≡ x }
{
    x
}

#[unsafe(no_mangle)]
pub extern "C" fn jc_echo_result_flat(x: ResultFlat) -> ResultFlat
    ensures { result ≡ x }
{
    x
}

#[unsafe(no_mangle)]
pub extern "C" fn jc_echo_progress_reply(x: ProgressReply) -> ProgressReply
    ensures { result ≡ x }
{
    x
}

#[unsafe(no_mangle)]
pub extern "C" fn jc_echo_stop_flat(x: StopFlat) -> StopFlat
    ensures { result ≡ x }
{
    x
}

#[unsafe(no_mangle)]
pub extern "C" fn jc_echo_line(x: LineRecord) -> LineRecord
    ensures { result ≡ x }
{
    x
}

#[unsafe(no_mangle)]
pub extern "C" fn jc_echo_write_flat(x: WriteReply) -> WriteReply
    ensures { result ≡ x }
{
    x
}

#[unsafe(no_mangle)]
pub extern "C" fn jc_echo_read_flat(x: ReadReply) -> ReadReply
    ensures { result ≡ x }
{
    x
}

#[unsafe(no_mangle)]
pub extern "C" fn jc_echo_last_line_record(x: LastRecord) -> LastRecord
    ensures { result ≡ x }
{
    x
}

#[unsafe(no_mangle)]
pub extern "C" fn jc_echo_count_record(x: Counts) -> Counts
    ensures { result ≡ x }
{
    x
}

#[unsafe(no_mangle)]
pub extern "C" fn jc_echo_replay_flat(x: ReplayFlat) -> ReplayFlat
    ensures { result ≡ x }
{
    x
}

#[unsafe(no_mangle)]
pub extern "C" fn jc_echo_resume_flat(x: ResumeFlat) -> ResumeFlat
    ensures { result ≡ x }
{
    x
}

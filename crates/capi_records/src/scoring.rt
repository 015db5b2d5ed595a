// Sum and count of a finding's errors.
// The struct has the fields of the one in include/jinnychair.h, in its order.
ghost use Rattle.std.specs.Prelude.{◌≡◌};
ghost use Rattle.capi_records.specs.Scoring.{flat_error_count};

use crate::lists::refusal_number;
use common::Refusal;
use score::errors::ErrorSum;

// 0, the sum of the errors and how many there are, or 13 or 27.
#[repr(C)]
#[derive(Clone, Copy, Default)]
pub struct ErrorCountReply {
    pub number: u8,
    pub sum: f64,
    pub counted: usize,
}

impl From<Result<ErrorSum, Refusal>> for ErrorCountReply {
    ghost from_gives = { λ errors reply. reply ≡ flat_error_count errors };

    fn from(errors: Result<ErrorSum, Refusal>) -> ErrorCountReply {
        let total = errors.unwrap_or_default();
        ErrorCountReply {
            number: refusal_number(errors),
            sum: total.sum,
            counted: total.count as usize,
        }
    }
}

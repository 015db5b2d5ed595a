// A plate with a known answer.
// The struct has the fields of the one in include/jinnychair.h, in its order.
ghost use Rattle.std.specs.Prelude.{◌≡◌};
ghost use Rattle.capi_records.specs.Plate.{flat_plate};

use crate::lists::refusal_number;
use common::Refusal;
use zhang::Conic;

// 0 and the six numbers, or 34.
#[repr(C)]
#[derive(Clone, Copy)]
pub struct PlateReply {
    pub number: u8,
    pub conic: Conic,
}

impl From<Result<Conic, Refusal>> for PlateReply {
    ghost from_gives = { λ plate reply. reply ≡ flat_plate plate };

    fn from(plate: Result<Conic, Refusal>) -> PlateReply {
        PlateReply {
            number: refusal_number(plate),
            conic: plate.unwrap_or_default(),
        }
    }
}

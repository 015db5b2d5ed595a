// A plate with a known answer.
ghost use Rattle.std.specs.Prelude.{◌≡◌};
ghost use Rattle.zhang.specs.Plate.{plate_of};
ghost use Rattle.capi_records.specs.Plate.{flat_plate};

use camera::intrinsics::FxFyCxCy;
use capi_records::plate::PlateReply;

#[unsafe(no_mangle)]
pub extern "C" fn jc_known_plate(k: FxFyCxCy) -> PlateReply
    ensures { result ≡ flat_plate (plate_of k) }
{
    zhang::plate::known_plate(k).into()
}

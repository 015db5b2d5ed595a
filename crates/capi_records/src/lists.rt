// The replies of the operations on lists of points.
// Each struct has the fields of the one in include/jinnychair.h, in its order.
ghost use Rattle.std.specs.Prelude.{◌≡◌};
ghost use Rattle.capi_records.specs.Lists.{refusal_number, flat_normalized, flat_line_test, flat_centre};

use camera::math::Pt2;
use common::Refusal;
use points::linalg::Transform;

// 0 and the transform's numbers that are neither 0 nor 1, or 17, 18 or 19.
#[repr(C)]
#[derive(Clone, Copy, Default)]
pub struct NormalizeReply {
    pub number: u8,
    pub t00: f64,
    pub t02: f64,
    pub t12: f64,
}

// 0 and 1 where the points are collinear, or 17.
#[repr(C)]
#[derive(Clone, Copy)]
pub struct LineReply {
    pub number: u8,
    pub collinear: u8,
}

// 0 and the centre, or 17.
#[repr(C)]
#[derive(Clone, Copy)]
pub struct CenterReply {
    pub number: u8,
    pub center: Pt2,
}

// 0 where nothing is refused, whatever the value is. A function and not a From: neither Result nor u8 is a type of this
// crate, so From can't be written for them.
pub fn refusal_number<T: Copy>(done: Result<T, Refusal>) -> u8
    ensures { result ≡ refusal_number done }
{
    match done {
        Ok(_) => 0,
        Err(refusal) => refusal.into(),
    }
}

impl From<Result<Transform, Refusal>> for NormalizeReply {
    ghost from_gives = { λ normalized reply. reply ≡ flat_normalized normalized };

    fn from(normalized: Result<Transform, Refusal>) -> NormalizeReply {
        let transform = normalized.unwrap_or_default();
        NormalizeReply {
            number: refusal_number(normalized),
            t00: transform.t00,
            t02: transform.t02,
            t12: transform.t12,
        }
    }
}

impl From<Result<bool, Refusal>> for LineReply {
    ghost from_gives = { λ test reply. reply ≡ flat_line_test test };

    fn from(test: Result<bool, Refusal>) -> LineReply {
        LineReply {
            number: refusal_number(test),
            collinear: test.unwrap_or_default().into(),
        }
    }
}

impl From<Result<Pt2, Refusal>> for CenterReply {
    ghost from_gives = { λ center reply. reply ≡ flat_centre center };

    fn from(center: Result<Pt2, Refusal>) -> CenterReply {
        CenterReply {
            number: refusal_number(center),
            center: center.unwrap_or_default(),
        }
    }
}

// A sine or cosine, a matrix, its inverse and an estimated camera.
// Each struct has the fields of the one in include/jinnychair.h, in its order.
ghost use Rattle.std.specs.Prelude.{◌≡◌};
ghost use Rattle.capi_records.specs.Camera.{flat_sum, matrix_of, flat_matrix, flat_inverse, flat_estimate};

use crate::lists::refusal_number;
use camera::intrinsics::FxFyCxCy;
use common::Refusal;

// 0 and the sine or the cosine, or 27.
#[repr(C)]
#[derive(Clone, Copy)]
pub struct SumReply {
    pub number: u8,
    pub value: f64,
}

// Three rows of three numbers.
#[repr(C)]
#[derive(Clone, Copy, Default)]
pub struct Matrix3 {
    pub m00: f64,
    pub m01: f64,
    pub m02: f64,
    pub m10: f64,
    pub m11: f64,
    pub m12: f64,
    pub m20: f64,
    pub m21: f64,
    pub m22: f64,
}

// 0 and the inverse, or 15.
#[repr(C)]
#[derive(Clone, Copy)]
pub struct InverseReply {
    pub number: u8,
    pub inverse: Matrix3,
}

// 0 and the camera, or 16.
#[repr(C)]
#[derive(Clone, Copy)]
pub struct CameraReply {
    pub number: u8,
    pub camera: FxFyCxCy,
}

impl From<Result<f64, Refusal>> for SumReply {
    ghost from_gives = { λ sum reply. reply ≡ flat_sum sum };

    fn from(sum: Result<f64, Refusal>) -> SumReply {
        SumReply {
            number: refusal_number(sum),
            value: sum.unwrap_or_default(),
        }
    }
}

impl From<Matrix3> for [[f64; 3]; 3] {
    ghost from_gives = { λ m rows. rows ≡ matrix_of m };

    fn from(m: Matrix3) -> [[f64; 3]; 3] {
        [
            [m.m00, m.m01, m.m02],
            [m.m10, m.m11, m.m12],
            [m.m20, m.m21, m.m22],
        ]
    }
}

impl From<[[f64; 3]; 3]> for Matrix3 {
    ghost from_gives = { λ rows m. m ≡ flat_matrix rows };

    fn from(rows: [[f64; 3]; 3]) -> Matrix3 {
        let [top, middle, bottom] = rows;
        Matrix3 {
            m00: top[0],
            m01: top[1],
            m02: top[2],
            m10: middle[0],
            m11: middle[1],
            m12: middle[2],
            m20: bottom[0],
            m21: bottom[1],
            m22: bottom[2],
        }
    }
}

impl From<Result<[[f64; 3]; 3], Refusal>> for InverseReply {
    ghost from_gives = { λ inverse reply. reply ≡ flat_inverse inverse };

    fn from(inverse: Result<[[f64; 3]; 3], Refusal>) -> InverseReply {
        InverseReply {
            number: refusal_number(inverse),
            inverse: inverse.unwrap_or_default().into(),
        }
    }
}

impl From<Result<FxFyCxCy, Refusal>> for CameraReply {
    ghost from_gives = { λ estimated reply. reply ≡ flat_estimate estimated };

    fn from(estimated: Result<FxFyCxCy, Refusal>) -> CameraReply {
        CameraReply {
            number: refusal_number(estimated),
            camera: estimated.unwrap_or_default(),
        }
    }
}

// The pinhole's four numbers, and the maps between pixels and the sensor's coordinates.
// Each map equals its formula, rounded operation by operation, for every input.

ghost use Rattle.std.specs.Prelude.{◌≡◌};
ghost use Rattle.camera.specs.Intrinsics.{pixel_to_sensor, sensor_to_pixel};

use crate::math::Pt2;

// Focal lengths and principal point, in pixels.
#[repr(C)]
#[derive(Clone, Copy, Default)]
pub struct FxFyCxCy {
    pub fx: f64,
    pub fy: f64,
    pub cx: f64,
    pub cy: f64,
}

pub fn pixel_to_sensor(k: FxFyCxCy, pixel: Pt2) -> Pt2
    ensures { result ≡ pixel_to_sensor k pixel }
{
    Pt2 {
        x: (pixel.x - k.cx) / k.fx,
        y: (pixel.y - k.cy) / k.fy,
    }
}

pub fn sensor_to_pixel(k: FxFyCxCy, sensor: Pt2) -> Pt2
    ensures { result ≡ sensor_to_pixel k sensor }
{
    Pt2 {
        x: k.fx * sensor.x + k.cx,
        y: k.fy * sensor.y + k.cy,
    }
}

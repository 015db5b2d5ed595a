ghost use Rattle.std.specs.Prelude.{◌≡◌, ◌+◌, ◌<◌, length};
ghost use Rattle.camera.specs.Distortion.{squared_norm};
ghost use Rattle.camera.specs.Math.{minus_point, point_at, squared_distance, distance_of};

use std::ops::Sub;

// A point of the plane, as the models take and return it.
#[repr(C)]
#[derive(Clone, Copy, Default)]
pub struct Pt2 {
    pub x: f64,
    pub y: f64,
}

impl Pt2 {
    // The squared distance from the origin.
    pub fn squared_norm(self) -> f64
        ensures { result ≡ squared_norm self }
    {
        self.x * self.x + self.y * self.y
    }
}

impl Sub for Pt2 {
    type Output = Pt2;

    ghost sub_gives = { λ p q difference. difference ≡ minus_point p q };

    fn sub(self, rhs: Pt2) -> Pt2 {
        Pt2 {
            x: self.x - rhs.x,
            y: self.y - rhs.y,
        }
    }
}

// The point whose x stands at i.
pub fn point_at(points: &[f64], i: usize) -> Pt2
    requires { i + 1 < length points.now }
    ensures { result ≡ point_at points.now i }
{
    Pt2 {
        x: points[i],
        y: points[i + 1],
    }
}

// The square of the distance of two points.
pub fn squared_distance(p: Pt2, q: Pt2) -> f64
    ensures { result ≡ squared_distance p q }
{
    (p - q).squared_norm()
}

pub fn distance(p: Pt2, q: Pt2) -> f64
    ensures { result ≡ distance_of p q }
{
    root::machine::sqrt(squared_distance(p, q))
}

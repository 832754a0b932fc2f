//! The straight line from one point to another.
ghost use Rattle.std.specs.Prelude.{◌≡◌, ◌+◌, ◌*◌, ◌/◌, ◌<◌, ◌≤◌, ◌-ℤ◌, unsigned_abs};
ghost use Rattle.raster.specs.Region.{inside};
ghost use Rattle.raster.specs.Confined.{Confined, Composes};
ghost use Rattle.raster.specs.Line.{toward as along, lined};
ghost use Rattle.raster.specs.Cases.{Worked};

use crate::brush::Brush;
use crate::region::Point;
use plane::Plane;

// How far point i of n lies from the start, where the end lies at a distance. The products fit: every factor is below 2^16.
fn offset(i: u64, distance: u64, n: u64) -> u64
    requires some { 0 < n }
    requires most { n ≤ 65535 }
    requires far { distance ≤ n }
    requires point { i ≤ n }
    ensures value { result ≡ (2 * i * distance + n) / (2 * n) }
    ensures within { result ≤ distance }
{
    (2 * i * distance + n) / (2 * n)
}

// The coordinate of point i of n on the way from a to b.
fn toward(a: i16, b: i16, n: u32, i: u32) -> i16
    requires far { unsigned_abs (a -ℤ b) ≤ n }
    requires most { n ≤ 65535 }
    requires point { i ≤ n }
    ensures { result ≡ along a b n i }
{
    if n == 0 {
        return a;
    }
    let step = offset(i as u64, a.abs_diff(b) as u64, n as u64) as i32;
    if a <= b {
        (a as i32 + step) as i16
    } else {
        (a as i32 - step) as i16
    }
}

impl Brush {
    /// Draws the line with source 1, every point clipped to the region by itself; its last point is left out on request.
    pub fn line<P: Plane>(self, plane: &mut P, from: Point, to: Point, last: bool)
        ensures picture { P.picture plane.new ≡ lined self.region self.operation from to last (P.picture plane.old) }
        ensures confined { Confined (inside self.region) (lined self.region self.operation from to last) }
        ensures composes { Composes }
        ensures worked { Worked }
    {
        let n = from.x.abs_diff(to.x).max(from.y.abs_diff(to.y)) as u32;
        let count = if last { n + 1 } else { n };
        for i in 0..count {
            let x = toward(from.x, to.x, n, i);
            let y = toward(from.y, to.y, n, i);
            self.join(plane, true, Point { x, y });
        }
    }
}

// A group moved to a point: parameters and points of its vertices.
// Kept by hand: parameters and points beside each other. A struct of both is no plainer: it must say in each contract that it still holds
// the two lent slices, and lend both out again. `Fit` names what is asked of the two.
ghost use Rattle.std.specs.Prelude.{◌+◌, ◌*◌, ◌≤◌, ◌<◌, length};
ghost use Rattle.mesh.specs.Complex.{Nodup};
ghost use Rattle.repair.specs.inside.smooth.Site.{Fit, Put, Placed, new_parameters, new_point, members};

use crate::layout::ROW_WORDS;
use crate::smooth::candidates::kept_on;
use crate::smooth::map::mapped;
use crate::smooth::site::Site;
use geometry::bounds::Options;
use geometry::point::Point;
use mesh::vertex::Points;
use mesh::words::{at, put};

// Writes the point of the vertex v of nv; nothing past the last.
fn put_point(points: &mut [f64], nv: usize, v: u32, p: Point)
    requires { (nv ≤ 4096) × (3 * nv ≤ length points.old) }
    ensures { Put nv v p points.old points.new }
{
    let i = v as usize;
    if nv <= i {
        return;
    }
    put(points, 3 * i, p.x);
    put(points, 3 * i + 1, p.y);
    put(points, 3 * i + 2, p.z);
}

// Moves the vertex v to p, but that a periodic coordinate on hi stays there: its parameters, and its point by the map.
fn move_vertex(o: Options, parameters: &mut [f64], points: &mut [f64], nv: usize, v: u32, p: Point)
    requires room { nv ≤ 4096 }
    requires fit { Fit nv parameters.old points.old }
    ensures put_parameters { Put nv v (new_parameters o nv parameters.old p v) parameters.old parameters.new }
    ensures put_points { Put nv v (new_point o nv parameters.old p v) points.old points.new }
{
    let q = kept_on(o, Points::new(parameters, nv).at(v), p);
    let r = mapped(q);
    put_point(parameters, nv, v, q);
    put_point(points, nv, v, r);
}

// Moves every vertex of the group, the last first.
pub(crate) fn move_group(
    o: Options,
    parameters: &mut [f64],
    points: &mut [f64],
    work: &[u32],
    s: Site,
    p: Point,
)
    requires room { s.vertices ≤ 4096 }
    requires fit { Fit s.vertices parameters.old points.old }
    requires once { Nodup (members work.now s.group s.count) }
    ensures placed_parameters { Placed s.vertices (new_parameters o s.vertices parameters.old p) (members work.now s.group s.count) parameters.old parameters.new }
    ensures placed_points { Placed s.vertices (new_point o s.vertices parameters.old p) (members work.now s.group s.count) points.old points.new }
{
    for k in (0..s.count).rev() {
        let v = at(work, s.group + ROW_WORDS * k);
        move_vertex(o, parameters, points, s.vertices, v, p);
    }
}

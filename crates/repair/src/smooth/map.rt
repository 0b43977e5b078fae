// The map from the parameters of a vertex to its point.
ghost use Rattle.std.specs.Prelude.{◌≡◌};
ghost use Rattle.repair.specs.Smooth.{mapped};

use geometry::point::Point;

// The point of a vertex with these parameters: the map is the identity.
#[tactic(auto, unfolding(crate::specs::Smooth::mapped))]
pub(crate) fn mapped(p: Point) -> Point
    ensures { result ≡ mapped p }
{
    p
}

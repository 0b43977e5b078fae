// What the rounds of `improve` read.
ghost use Rattle.std.specs.Prelude.{◌≡◌};
ghost use Rattle.mesh.specs.Feature.{strata_in};
ghost use Rattle.repair.specs.inside.improve.Partners.{strata_of};

use geometry::bounds::Options;
use mesh::star::Index;
use mesh::strata::Strata;
use mesh::vertex::Points;

// Where the areas of the work slice are, the options, and the masks, parameters and points of the vertices.
#[derive(Clone, Copy)]
pub struct Inputs<'a> {
    pub index: Index,
    pub options: Options,
    pub masks: &'a [u32],
    pub parameters: Points<'a>,
    pub points: Points<'a>,
}

impl<'a> Inputs<'a> {
    // What the strata of the vertices come from.
    pub(crate) fn strata(&self) -> Strata<'a>
        ensures { strata_in result ≡ strata_of self.now }
    {
        Strata::new(self.masks, self.parameters, self.options.bounds)
    }
}

// The edge that the link tests are asked about.
ghost use Rattle.std.specs.Prelude.{◌≡◌, true, ◌≢◌};
ghost use Rattle.mesh.specs.Complex.{sub};
ghost use Rattle.mesh.specs.Feature.{bits_of, strata_in};

use crate::strata::Strata;

// Two different vertices, where the bits of a are b's.
#[derive(Clone, Copy)]
pub(crate) struct Ends<'a> {
    pub a: u32,
    pub b: u32,
    pub strata: Strata<'a>,
    ghost apart: { a ≢ b },
    ghost inside: { sub (bits_of (strata_in strata a)) (bits_of (strata_in strata b)) ≡ true },
}

// Where a group and the elements about it stand in the work.
ghost use Rattle.std.specs.Prelude.{◌+◌, ◌*◌, ◌≤◌};

use crate::layout::ROW_WORDS;
use mesh::words::at;

// The sorted rows of the group (mesh, group.rt), the vertex the last word of each and the first of them at `group`, and at `area` the
// numbers of `about` elements. `vertices` is how many the mesh has.
// Kept by hand: offsets, no plainer: `start_from` writes the work behind the elements while the site stands, and slices would hold the work.
#[derive(Clone, Copy)]
pub(crate) struct Site {
    pub vertices: usize,
    pub group: usize,
    pub count: usize,
    pub area: usize,
    pub about: usize,
    pub ghost rows: { group + 7 * count ≤ 4294967296 },
    pub ghost list: { area + about ≤ 4294967296 },
}

impl Site {
    ghost use Rattle.std.specs.Prelude.{◌≡◌};
    ghost use Rattle.mesh.specs.Complex.{mem};
    ghost use Rattle.repair.specs.inside.smooth.Site.{members};

    // Whether v is a vertex of the group.
    pub(crate) fn has(self, work: &[u32], v: u32) -> bool
        ensures { result ≡ mem v (members work.now self.group self.count) }
    {
        for k in 0..self.count {
            if v == at(work, self.group + ROW_WORDS * k) {
                return true;
            }
        }
        false
    }
}

// Rows of w words with the same first words, one run after the other.
ghost use Rattle.std.specs.Prelude.{◌+◌, ◌*◌, ◌≤◌, length};
ghost use Rattle.std.specs.Iterator.{at_most};

use crate::rows::count_run;

// The runs that are left: of the `left` rows of w words from `at` on, those with the same first kw words. An item is the place where a run
// begins, and how many rows it has.
// Kept by hand: no plainer with the run's slice for an item. Contracts speak of rows, and each would divide the slice's length by a width
// that is no constant to tell how many they are.
#[derive(Drop)]
pub(crate) struct Runs<'a> {
    area: &'a [u32],
    at: usize,
    left: usize,
    w: usize,
    kw: usize,
    ghost room: { at + left * w ≤ length area.now },
    ghost keyed: { kw ≤ w },
}

impl<'a> Runs<'a> {
    ghost use Rattle.mesh.specs.inside.Runs.{RunsOf};

    // The runs of the m rows from p on.
    pub(crate) fn new(area: &'a [u32], p: usize, m: usize, w: usize, kw: usize) -> Runs<'a>
        requires { (p + m * w ≤ length area.now) × (kw ≤ w) }
        ensures { RunsOf area.now p m w kw result }
    {
        Runs {
            area,
            at: p,
            left: m,
            w,
            kw,
        }
    }
}

impl<'a> Iterator for Runs<'a> {
    ghost use Rattle.mesh.specs.inside.Runs.{GivesRun};

    type Item = (usize, usize);

    ghost next_gives = { GivesRun };

    ghost remaining = { λ s. at_most s.left };

    fn next(&mut self) -> Option<(usize, usize)> {
        if self.left == 0 {
            return None;
        }
        let first = self.at;
        let k = count_run(self.area, first, first, self.left, self.w, self.kw);
        self.at = first + k * self.w;
        self.left -= k;
        Some((first, k))
    }
}

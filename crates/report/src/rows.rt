// Rows of numbers, one for each record, and slices that hold one behind the other.
ghost use Rattle.std.specs.Prelude.{◌≡◌, ℕ, List, ◌*◌, ◌<◌, ◌≤◌, ◌++◌, length, drop};
ghost use Rattle.report.specs.Bytes.{listed};

// A kind of rows, of W numbers each.
pub(crate) trait Rows<T, const W: usize> {
    ghost told: { Self → ℕ → List T };

    // Writes the row of the record i.
    fn put(&self, i: usize, to: &mut [T])
        requires { (i < 1000) × (length to.old ≡ W) }
        ensures { to.new ≡ told self.now i };

    ghost wide: { (r : Self) (i : ℕ) → length (told r i) ≡ W };
}

// Puts the rows of n records to the front.
pub(crate) fn put_rows<T, const W: usize, R: Rows<T, W>>(rows: &R, n: usize, out: &mut [T])
    requires { (n ≤ 1000) × (W * n ≤ length out.old) }
    ensures { out.new ≡ listed (R.told rows.now) n ++ drop (W * n) out.old }
{
    for i in 0..n {
        rows.put(i, &mut out[W * i..W * i + W]);
    }
}

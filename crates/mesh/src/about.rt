// The live elements about several vertices, the elements of listed slots, and all live elements: more of what the index of star.rt
// finds, written into the same slice's area.
//
// Kept by hand, in all functions here: members, lists and elements at offsets of the lent slice, with a count, as in star.rt.
ghost use Rattle.std.specs.Prelude.{◌≡◌, ◌+◌, ◌*◌, ◌<◌, ◌≤◌, true, ◌||◌, ◌⊎◌, [], ◌∷◌, length, nat_le, nat_lt};
ghost use Rattle.mesh.specs.Complex.{keep};
ghost use Rattle.mesh.specs.Element.{vertices_of};
ghost use Rattle.mesh.specs.inside.Star.{written};
ghost use Rattle.mesh.specs.inside.About.{members, slots_of, about_room, about_list, about_in, slot_at, words_of, space_for, elements_in, live, live_room, live_list, live_in};

use crate::rows::put_row;
use crate::star::{GONE, Index, make_distinct};
use crate::words::at;

// The place p + step, and m where that is no less.
// Kept by hand: the places of the members are no range with a step, since `from` and `step` are any numbers and could overflow. With
// `from`, `count` and `step` in a struct, two functions that `star_about` hands them on to would take one parameter for three, and
// each turn would still work out its place: no plainer.
fn later(m: usize, p: usize, step: usize) -> usize
    ensures { (result ≡ p + step) ⊎ ((m ≤ result) × (m ≤ p + step)) }
{
    p.saturating_add(step).min(m)
}

impl Index {
    // Whether the area has room for twice the entries of the members' chains, and no member stands in it.
    // Kept by hand: no single expression, since the tests of a member stand in the loop that adds up the entries.
    fn has_about(self, s: &[u32], from: usize, count: usize, step: usize) -> bool
        ensures { result ≡ about_room self s.now from count step }
    {
        let m = s.len();
        if !self.is_laid(m) {
            return false;
        }
        let a = self.area;
        let most = (m - a) / 2;
        let mut n = 0;
        let mut p = from;
        for _ in 0..count {
            if (a..m).contains(&p) {
                return false;
            }
            let v = at(s, p);
            n += self.chain_length(s, v);
            if most < n {
                return false;
            }
            p = later(m, p, step);
        }
        true
    }

    // Puts the slots where a member stands at the area's front, by its chain, one member's behind the other's, and gives how many.
    fn put_about(self, s: &mut [u32], from: usize, count: usize, step: usize) -> usize
        requires { about_room self s.old from count step ≡ true }
        ensures { (result ≡ length (slots_of self s.old (members count from step s.old)))
            × (s.new ≡ written s.old self.area (slots_of self s.old (members count from step s.old))) }
    {
        let m = s.len();
        let a = self.area;
        let mut n = 0;
        let mut p = from;
        for _ in 0..count {
            let v = at(s, p);
            let k = self.put_slots(s, v, a + n);
            n += k;
            p = later(m, p, step);
        }
        n
    }

    // Lists the live elements that have one of the members, in number order, at the area's front, and gives how many. The members are
    // the `count` words at from, from + step, .., 0 past the end. None where a member stands in the area, or there is no room for twice
    // the entries of all their chains.
    pub fn star_about(self, s: &mut [u32], from: usize, count: usize, step: usize) -> usize
        ensures { (result ≡ length (about_list self s.old from count step)) × (s.new ≡ about_in self s.old from count step) }
    {
        if !self.has_about(s, from, count, step) {
            return 0;
        }
        let a = self.area;
        let n = self.put_about(s, from, count, step);
        make_distinct(s, a, n)
    }

    // Whether n rows of w words have room in the area.
    fn has_space(self, m: usize, n: usize, w: usize) -> bool
        requires { 0 < w }
        ensures { result ≡ space_for self m n w }
    {
        self.is_laid(m) && n <= (m - self.area) / w
    }

    // The words of the slot e, gone where there is no such slot.
    #[tactic(auto, unfolding(crate::specs::inside::About::slot_at))]
    fn slot_at(self, s: &[u32], e: u32) -> [u32; 4]
        requires { self.room ≤ 131072 }
        ensures { result ≡ vertices_of (slot_at self s.now e) }
    {
        if e < self.room {
            self.corners(s, e)
        } else {
            [GONE; 4]
        }
    }

    // Writes the elements of the n slots that the area's front lists behind the list, four words each, as they stand; one that is gone
    // for a number that is no slot's. Nothing where there is no room.
    pub fn elements_at(self, s: &mut [u32], n: usize)
        ensures { s.new ≡ elements_in self n s.old }
    {
        if !self.has_space(s.len(), n, 5) {
            return;
        }
        let a = self.area;
        for i in 0..n {
            let t = self.slot_at(s, at(s, a + i));
            put_row(s, a + n + 4 * i, &t);
        }
    }

    // Puts the element of the slot e at k unless it is gone, and gives how many that is.
    fn put_live(self, s: &mut [u32], e: u32, k: usize) -> usize
        requires { (self.room ≤ 131072) × (k + 4 ≤ length s.old) }
        ensures { (result ≡ length (keep live (slot_at self s.old e ∷ [])))
            × (s.new ≡ written s.old k (words_of (keep live (slot_at self s.old e ∷ [])))) }
    {
        let t = self.slot_at(s, e);
        if t[0] == GONE {
            return 0;
        }
        put_row(s, k, &t);
        1
    }

    // Whether there are n slots, and room for their elements in the area.
    #[tactic(auto, unfolding(crate::specs::inside::About::live_room))]
    fn has_live(self, m: usize, n: usize) -> bool
        ensures { result ≡ live_room self m n }
    {
        n <= self.room as usize && self.has_space(m, n, 4)
    }

    // Copies the elements of the first n slots that are not gone to the area's front, four words each, in number order, and gives how
    // many. None where there are fewer slots, or there is no room for n elements.
    pub fn live_elements(self, s: &mut [u32], n: usize) -> usize
        ensures { (result ≡ length (live_list self n s.old)) × (s.new ≡ live_in self n s.old) }
    {
        if !self.has_live(s.len(), n) {
            return 0;
        }
        let a = self.area;
        let mut k = 0;
        for e in 0..n as u32 {
            k += self.put_live(s, e, a + 4 * k);
        }
        k
    }
}

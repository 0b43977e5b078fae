// The live elements that have two or three vertices, by the index of star.rt: of two chains the shorter is walked.
//
// Kept by hand: the answer at an offset of the lent slice, with a count, as in star.rt.
ghost use Rattle.std.specs.Prelude.{◌≡◌, ◌/◌, ◌<◌, [], ◌∷◌, length};
ghost use Rattle.std.specs.Iterator.{YieldsFirst, item_count};
ghost use Rattle.mesh.specs.Complex.{mem};
ghost use Rattle.mesh.specs.inside.Star.{corners_at, chain_length, chain_of, Free, written};
ghost use Rattle.mesh.specs.inside.With.{chain_left, rarer, entry_has, with_if, with_met, any_with, with_room, with_list, with_in};

use crate::star::{Gather, Index, make_distinct, put_if, word_in};

// The entries of a chain that are left to walk.
#[derive(Clone, Copy)]
struct Chain<'a> {
    index: Index,
    words: &'a [u32],
    entry: u32,
    left: usize,
}

impl<'a> Iterator for Chain<'a> {
    type Item = u32;

    ghost next_gives = { YieldsFirst chain_left };

    ghost remaining = { item_count chain_left };

    #[tactic(auto, unfolding(crate::specs::inside::Star::walk, crate::specs::inside::With::chain_left))]
    fn next(&mut self) -> Option<u32> {
        let p = self.entry;
        if self.left == 0 || self.index.room <= p / 4 {
            return None;
        }
        self.entry = word_in(self.words, self.index.nexts, p);
        self.left -= 1;
        Some(p)
    }
}

// The slot of an entry where it has v and w.
#[derive(Clone, Copy)]
struct SlotsWith {
    v: u32,
    w: u32,
}

impl Gather for SlotsWith {
    ghost width = { 1 };

    ghost words = { λ g x s p. with_if x s (g.v ∷ g.w ∷ []) p };

    #[tactic(auto, unfolding(crate::specs::inside::With::with_if))]
    fn put(&self, s: &mut [u32], x: Index, p: u32, k: usize) -> usize {
        let has = x.has_all(s, &[self.v, self.w], p);
        put_if(s, k, p / 4, has)
    }
}

impl Index {
    // The one of v and w whose chain has fewer entries, v where both have as many.
    #[tactic(auto, unfolding(crate::specs::inside::With::rarer))]
    fn rarer(self, s: &[u32], v: u32, w: u32) -> u32
        ensures { result ≡ rarer self s.now v w }
    {
        if self.chain_length(s, v) <= self.chain_length(s, w) {
            v
        } else {
            w
        }
    }

    // Whether the slot of the entry p has all of vs.
    #[tactic(auto, unfolding(crate::specs::inside::With::entry_has))]
    fn has_all(self, s: &[u32], vs: &[u32], p: u32) -> bool
        ensures { result ≡ entry_has self s.now vs.now p }
    {
        let us = self.corners(s, p / 4);
        vs.iter().all(|v| us.contains(v))
    }

    // The chain of v.
    #[tactic(auto, unfolding(crate::specs::inside::Star::chain_of))]
    fn chain(self, s: &[u32], v: u32) -> Chain<'_>
        ensures { chain_left result ≡ chain_of self s.now v }
    {
        Chain {
            index: self,
            words: s,
            entry: word_in(s, self.heads, v),
            left: self.chain_length(s, v),
        }
    }

    // Whether a live element has u, v and w, by the shorter of the chains of u and v.
    pub fn any_with(self, s: &[u32], u: u32, v: u32, w: u32) -> bool
        ensures { result ≡ any_with self s.now u v w }
    {
        let a = self.rarer(s, u, v);
        self.chain(s, a).any(|p| self.has_all(s, &[u, v, w], p))
    }

    // Whether twice the entries of the shorter of both chains have room in the area.
    #[tactic(auto, unfolding(crate::specs::inside::With::with_room))]
    fn has_with(self, s: &[u32], v: u32, w: u32) -> bool
        ensures { result ≡ with_room self s.now v w }
    {
        let a = self.rarer(s, v, w);
        self.has_room(s.len(), self.chain_length(s, a))
    }

    // Puts the slots that have v and w, by the shorter of both chains, at the area's front, and gives how many.
    fn put_with(self, s: &mut [u32], v: u32, w: u32) -> usize
        requires { Free self s.old self.area (chain_length self s.old (rarer self s.old v w)) }
        ensures { (result ≡ length (with_met self s.old (rarer self s.old v w) (v ∷ w ∷ [])))
            × (s.new ≡ written s.old self.area (with_met self s.old (rarer self s.old v w) (v ∷ w ∷ []))) }
    {
        let a = self.rarer(s, v, w);
        self.put_each(s, a, self.area, &SlotsWith { v, w })
    }

    // Lists the live elements that have v and w, in number order, each once, at the area's front, and gives how many. None where there
    // is no room for twice the entries of the shorter of both chains.
    pub fn slots_with(self, s: &mut [u32], v: u32, w: u32) -> usize
        ensures { (result ≡ length (with_list self s.old v w)) × (s.new ≡ with_in self s.old v w) }
    {
        if !self.has_with(s, v, w) {
            return 0;
        }
        let n = self.put_with(s, v, w);
        make_distinct(s, self.area, n)
    }
}

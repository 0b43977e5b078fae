// Counts of what was compared.

// How many agree, differ, and are not replayed.
#[derive(Clone, Copy, Debug, Default, PartialEq, Eq)]
pub(crate) struct Tally {
    pub agree: u64,
    pub differ: u64,
    pub left: u64,
}

// A count and more; where it is large already it stays.
fn plus(count: u64, more: u64) -> u64 {
    if count <= u64::from(u32::MAX) {
        count.saturating_add(more)
    } else {
        count
    }
}

impl Tally {
    pub fn count(&mut self, agrees: bool) {
        let n = if agrees {
            &mut self.agree
        } else {
            &mut self.differ
        };
        *n = n.saturating_add(1);
    }

    pub fn add(&mut self, other: Tally) {
        self.agree = plus(self.agree, other.agree);
        self.differ = plus(self.differ, other.differ);
        self.left = plus(self.left, other.left);
    }
}

// Floats: points, the square root, the score of an element, the box with its ranks and caps, fields,
// and the words of a float. Every public function is total, and its contract is an equation with a
// definition of specs/.
#![tactic(auto)]

pub mod bounds;
pub mod field;
pub mod float;
pub mod point;
pub mod root;
pub mod score;
pub mod word;

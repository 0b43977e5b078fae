// Numbers: words and rows in lent areas, elements and their faces, the boundary, intake, links and
// groups. Every public function is total, and its contract is an equation with a definition of
// specs/.
#![tactic(auto)]

pub mod about;
pub mod boundary;
pub mod element;
pub mod euler;
mod faces;
pub mod group;
pub mod intake;
pub mod link;
pub mod list;
pub mod manifold;
mod marks;
pub mod measure;
pub mod refusal;
pub mod rows;
mod runs;
pub mod shared;
pub mod short;
pub mod star;
pub mod strata;
pub mod vertex;
pub mod with;
pub mod words;

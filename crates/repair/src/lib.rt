// The passes `improve`, `smooth` and `flip`, and the projection of `smooth`, each with its parts in a folder of its name. What several
// use stands beside them. specs/ has their definitions.
#![tactic(auto)]

pub mod answer;
pub mod flip;
pub mod improve;
mod layout;
pub mod project;
mod quality;
mod slots;
pub mod smooth;

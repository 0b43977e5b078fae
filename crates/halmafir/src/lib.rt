// Halmafir for programs in other languages: the passes, the boundary and the text of `plot` over numbers and slices. Crate halmafir_c exports them to C.
#![tactic(auto)]

pub mod arrays;
pub mod boundary;
pub mod passes;
pub mod plot;

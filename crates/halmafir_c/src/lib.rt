//! The functions of crate halmafir for programs in other languages, under the same names and with the same clauses: the archive libhalmafir.a. A slice
//! passes as a pointer and a length, an array as a pointer to its first number. include/halmafir.h says in words what each function promises.
#![tactic(auto)]

pub mod boundary;
pub mod passes;
pub mod plot;

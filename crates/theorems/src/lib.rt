// No code: specs/ states theorems about the definitions of the crates below, and proofs/ proves them.
// The worked examples M1 to M12 of document 01; with which numbers `improve` and `flip` may end; what a
// manifold surface is, and that number 22 is given where the surface is none.
#![tactic(auto)]

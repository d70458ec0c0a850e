// promises_calls: what the calls for programs in C promise beside the planner's: tickets on rows of C's memory. Theorems over the definitions of the crates
// below.
// Statements in specs/, one short file each; their proofs in proofs/. No code.

#![tactic(auto)]

// promises: what the requests on offices, mending and months promise (L6, L7, L11, L13), and `price` and `check`, each by conditions of its own, as
// theorems over the definitions of the crates below.
// Statements in specs/, one short file each; their proofs in proofs/. No code.

#![tactic(auto)]

// demands: what the user asked for, as theorems over the definitions of the crates below: the three demands, the worked cases as one table, and the
// promises of the requests on tapes, the sweep's end, turn prices, figures, the plain engine, legs, aggregates, the rule and shared runs (L1 to L5, L9, L10,
// L12, L14). Those of L6, L7, L11 and L13 stand in the crate promises, more of L1 in answer_ltfs and tape_markup; L8 changed no contract.
// Statements in specs/, one short file each; their proofs in proofs/. No code.

#![tactic(auto)]

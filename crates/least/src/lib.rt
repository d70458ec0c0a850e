// The mathematics of plans: what "least" means, and why the table's recurrence finds it. Definitions and laws only; no code.

#![tactic(auto)]

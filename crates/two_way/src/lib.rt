// Demand 2 with the writer itself, both ways: what `write` writes reads back the same, and what `read` accepts is what `write` writes
// of the values that reading told. Theorems only, no function: `specs/` says how an answer of reading is given to the writer,
// `proofs/` has the laws.
#![tactic(auto)]

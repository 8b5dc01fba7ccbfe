// Reading is tied to the format, both ways: what is written reads back, and what is accepted is what could have been written; and
// what an accepted packet has for those who store and join it. Theorems only, no function: `specs/` says which values an answer
// tells, `proofs/` has the laws.
#![tactic(auto)]

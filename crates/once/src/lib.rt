// Each tile once: over any list of arrivals, takings and joinings without a forgetting, under demand 3's other conditions, each message is
// handed out at most once, it is out or complete exactly if all its segments have arrived, and takings up to refusal 20 hand out all that are
// complete. Theorems only, no function. `specs/` says it over a store's octets; `proofs/` has the laws, a run that meets every condition, and
// wrong programs that fail it.
#![tactic(auto)]

// Demand 3: messages cut into segments that arrive in any order, with takes, joinings and forgettings between, at an empty store with room.
// Theorems only, no function. `specs/` says what is presupposed and what is promised, over a store's cells (`Traffic`, `Promise`, `Base`)
// and over its octets, for messages cut in any way (`Calls`, `Sendings`, `Presupposed`, `Whole`) and those of the cutter among them
// (`Cutter`); and what holds of joinings alone (`Joins`). `proofs/` has the laws. Before them stand those of a single call: the cells after
// an arrival, a taking and a forgetting (`After`, `Zeroed`, over `specs/Cells`), what leaves a store as it was (`Untouched`), and that freed
// cells are used again and late repeats told as taken (`Repeats`).
#![tactic(auto)]

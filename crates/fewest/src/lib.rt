// The laws of cutting a message into packets: no list of packets that carries it is shorter, and what is cut reads back as the message.
// Theorems only, no function: `specs/` says what it is to carry a message, `proofs/` has the laws.
#![tactic(auto)]

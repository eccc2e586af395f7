#![tactic(auto)]

// The laws that every later crate cites: searches for the first failure, tests and sums over numbers, and
// lists changed in place. Definitions in specs/, laws in proofs/, no code. Depends on nothing.

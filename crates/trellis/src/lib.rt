// The mathematics of paths and metrics, once, over an abstract trellis.
// It has no code: the definitions stand in specs/, the laws in proofs/.
#![tactic(auto)]

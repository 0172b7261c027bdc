// The deferral as a layer over any port, its rules, and the proof that it means a port: definitions
// and proofs alone, which the code of port_deferral is held to.
#![tactic(auto)]

// The keeper's machine over any port, and the keeper's rules. The code of crate port_keeper is held
// to the machine, which is proved to keep to the rules and to have the meaning of a port.
// Definitions and proofs alone.
#![tactic(auto)]

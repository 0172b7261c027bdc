// The machine of the I2C bus, and the proof that it has the meaning of a bus: definitions and
// proofs alone.
#![tactic(auto)]

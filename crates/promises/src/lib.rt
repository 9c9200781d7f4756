// What the entries in C promise, and the laws of it: definitions and proofs alone. The entries themselves are in host.
#![tactic(auto)]

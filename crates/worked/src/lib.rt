// Worked examples of the definition that take a whole image, in proofs/. No code: the prover computes them.
#![tactic(auto)]

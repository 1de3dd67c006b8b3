// What the definition guarantees, in specs/ and proofs/. No code: the theorems are about the definition alone.
#![tactic(auto)]

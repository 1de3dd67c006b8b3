// Laws on whole numbers, in specs/. No code.
#![tactic(auto)]

// Laws of model's outcome definitions, for the crates with code and for theory. No code: see specs/.
#![tactic(auto)]

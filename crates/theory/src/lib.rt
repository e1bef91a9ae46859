// The theorems about the definitions of model and thresholds. No code: see specs/.
#![tactic(auto)]

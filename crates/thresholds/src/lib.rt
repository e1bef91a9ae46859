// Lists of allowed counts, and what the search over them computes. Definitions and laws of them: see specs/.
#![tactic(auto)]

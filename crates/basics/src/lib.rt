// General definitions and laws on lists, sums, bits, bytes and text, for every crate, and the toolchain's names. No code: see specs/.
#![tactic(auto)]

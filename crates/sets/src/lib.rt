// Sets of numbers written as one number, and sums over an index or over sets: definitions and laws only, no code.
#![tactic(auto)]

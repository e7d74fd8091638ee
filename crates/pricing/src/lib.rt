// Discounts under bounds for sets of winners, and certificates that they are best: definitions and laws only, no code.
#![tactic(auto)]

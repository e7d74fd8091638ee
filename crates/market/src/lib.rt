// The winner determination problem of a package auction, over an abstract market: definitions in specs/, their theory in proofs/. No code.
#![tactic(auto)]

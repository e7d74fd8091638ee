// What is promised of a certifier of auction prices, with no code: specs/ has sheets, questions 6 to 15, the answer and the demands as
// definitions, over a book and the bytes of a sheet; proofs/ has their theorems, and the tables of worked calls and of edges. The judging
// crate's contracts cite specs/, and its proofs both.
#![tactic(auto)]

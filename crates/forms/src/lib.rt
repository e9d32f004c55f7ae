#![tactic(auto)]

// No code: what calls on words answer where C calls them, for every kind of board (specs/Results.antt), and the laws of it (proofs/).

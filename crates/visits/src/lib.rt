#![tactic(auto)]

// No code: laws of the blocks that a walk visits, N6 of document 02.

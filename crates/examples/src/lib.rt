#![tactic(auto)]

// Document 01's marked bench examples, and writes past the end, computed from the definitions. It has no code: the claims are `marked` and `past_end_law`.

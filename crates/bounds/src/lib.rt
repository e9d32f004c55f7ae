#![tactic(auto)]

// How many stores a write may cost, and which plan slices hold every plan. No code: the claims are those of specs/Claims.antt.

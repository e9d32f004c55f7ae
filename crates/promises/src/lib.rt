#![tactic(auto)]

// What the contracts of the calls give together with the laws. It has no code.

#![tactic(auto)]

// That block 0, the boot code's, decides no answer. It has no code: the claim is BootRule of the model.

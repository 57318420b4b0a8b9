// What follows from the definition alone. No code.
#![tactic(auto)]

// What emission keeps: what follows from its definition alone, for the code that will do it. No code.
#![tactic(auto)]

// Runs and histories: what is proved of any list of changes. It has definitions and theorems, and no code.

#![tactic(auto)]

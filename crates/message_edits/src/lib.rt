// Edits of message rows: a new message, a target's progress, and what is finished.
#![tactic(auto)]

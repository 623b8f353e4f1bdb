// Edits of session rows: subscriptions and unsubscriptions.
#![tactic(auto)]

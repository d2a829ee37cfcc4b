// Sums over a range, searches by a test and tables in lists: definitions and laws alone, shared by every layer.
#![tactic(auto)]

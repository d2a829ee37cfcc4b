// The fourteen worked lines of document 01 that are proved of the definitions, as one statement.
#![tactic(auto)]

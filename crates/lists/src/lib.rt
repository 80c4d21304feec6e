// Definitions and laws on lists of numbers and of entries, shared by the table, the rows and the graph. There is no code.
#![tactic(auto)]

// No code: what the cells of links say of nodes and links, as lists, and the laws of that.
#![tactic(auto)]

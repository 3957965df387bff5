// The guarantee of the packing method, over abstract resources and columns.
#![tactic(auto)]

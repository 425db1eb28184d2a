// Mathematics only: the words of a pool, what is read off them and written to them, and the tree that they hold.
#![tactic(auto)]

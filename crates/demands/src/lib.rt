// Mathematics only: the three demands, the cases at the fences, and that no second answer satisfies a promise. Its statements are about what `pages` promises.
#![tactic(auto)]

// The examples of the rules that are proved (rules 10.1 to 10.5, the depths of 10.6, 10.8 to 10.11): one list, and
// one statement that every row of it holds, and beside them those of moved light and theirs, on the definitions
// that the contracts of `picture`, `linear`, `tint`, `stickers` and `printer` cite. There is nothing to run.
#![tactic(auto)]

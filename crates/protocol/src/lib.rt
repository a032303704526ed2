// The lease protocol, as theorems: a live copy never lies, a write takes effect at most once, none waits long.
//
// specs/ has the protocol: what is kept (Net, Messages, State), the rules that may be altered (Rules), the actions with their guards (Passing,
// Leasing, Recalling, Writing), runs and their story (Events, Steps, Runs, Calls, Story), what is promised of them (Promises), and the runs
// that exist (Witnesses).
// Here each theorem stands on the contract of a function that gives the number or the rule that it turns on.
#![tactic(auto)]

pub mod promises;
pub mod rules;
pub mod witnesses;

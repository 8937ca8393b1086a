// Laws alone: what document 01 demands of any image, state, arguments and budgets, over the definitions of the other crates.
#![tactic(auto)]

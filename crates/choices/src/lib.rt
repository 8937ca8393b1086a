// Laws alone: cases of a test, of an order and of a choice, tests joined by `&` and `|`, and a test at every number below another. Every
// definition that chooses does so by the library's `cond`.
#![tactic(auto)]

// Laws alone: what a decoded instruction names, and how far its effect reaches (specs/Within, specs/Suits). The machine's
// step rests on them, and so does the law that an accepted image never faults.
#![tactic(auto)]

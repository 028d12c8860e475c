// What the programs that run cases of the machine share: a machine with all that is lent to it, what it answers, and digests of states.
#![tactic(auto)]

pub mod answers;
pub mod digest;
pub mod machine;

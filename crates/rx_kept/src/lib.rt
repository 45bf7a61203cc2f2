//! What holds of each machine that takes the steps of a script: the steps that it can take, what it keeps of the resources, and the
//! hooks that the instances of its tree have.
#![tactic(auto)]

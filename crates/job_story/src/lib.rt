//! How a run of a job goes, from its first attach to its last line, as definitions: the code of a run and the laws on what it
//! promises both stand on them.
#![tactic(auto)]

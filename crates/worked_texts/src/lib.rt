//! Worked cases: the definitions of the texts of instances, of pairs and of proofs, computed on texts worked by hand. They are
//! files of `proofs/`, in a crate on which nothing stands, so that a new one has nothing proved anew.
#![tactic(auto)]

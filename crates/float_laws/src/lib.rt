// Laws of floats for proofs: values as fractions, and how far a rounded result lies from the exact one. There is no
// code here: see specs/.

#![tactic(auto)]

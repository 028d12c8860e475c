// Laws of load files (document 02, R-10). They are in specs/, and those of whole files in proofs/; there is no code here.

#![tactic(auto)]

// Laws of padded program files (document 02, R-7). They are in specs/; there is no code here.

#![tactic(auto)]

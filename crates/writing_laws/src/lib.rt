// Laws of written program files (document 02, R-6). They are in specs/; there is no code here.

#![tactic(auto)]

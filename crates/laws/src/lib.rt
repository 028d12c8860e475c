// Laws of the definition beside demand 3. They are in specs/; there is no code here.

#![tactic(auto)]

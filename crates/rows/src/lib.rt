// Worked cases of the change requests, computed from the definition. They are in specs/; there is no code here.

#![tactic(auto)]

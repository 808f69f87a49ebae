// Laws only: document 01's worked texts that are marked P, computed of the definitions.
#![tactic(auto)]

// Laws only: the canonical text, read again in STRICT.
#![tactic(auto)]

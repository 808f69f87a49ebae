// Laws only: Annex D's grammar as a relation, held against the reader by levels.
#![tactic(auto)]

// What a template means: the program of its print. The specs and the lemmas hold it all; there is no code here.
#![tactic(auto)]

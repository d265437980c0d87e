// What a template is: its grammar, the machine that reads it byte by byte, and the laws that tie the two. The specs and the lemmas
// hold it all; there is no code here.
#![tactic(auto)]

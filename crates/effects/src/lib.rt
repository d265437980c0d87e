// What a print does: programs of steps, bytes, assignments and questions, what comes of them under limits, and the laws of that. The specs
// and the lemmas hold it all; there is no code here.
#![tactic(auto)]

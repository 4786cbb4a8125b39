// No code: which of two jobs may come before the other, and the theorem that the test decides whether some order is granted throughout.
#![tactic(auto)]

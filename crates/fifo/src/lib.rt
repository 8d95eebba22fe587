// First in, first out: the stack of a Mighty Mux over any list of calls. Theorems; no code.
#![tactic(auto)]

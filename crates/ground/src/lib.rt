// What every layer stands on: choosing by a test. Definitions and laws alone, no code.
#![tactic(auto)]

// No code: specs/Traces.antt is a table of what the definitions give, proved from them.
#![tactic(auto)]

// What is written is read back, entry for entry, and written again, byte for byte.
#![tactic(auto)]

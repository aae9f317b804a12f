// General laws of Booleans, lists and numbers that the toolchain's libraries lack. There is no function here.
#![tactic(auto)]

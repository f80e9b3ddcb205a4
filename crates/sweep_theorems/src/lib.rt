// What is proved of a sweep's rows, over any code and longer code. No code.
#![tactic(auto)]

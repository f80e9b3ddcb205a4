// What a description of six sections decodes to is what document 01 says, at every address: definitions and laws, no code.
#![tactic(auto)]

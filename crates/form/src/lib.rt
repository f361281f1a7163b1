// What a description of bytes is, and its laws, and no code: specs/ and proofs/.
#![tactic(auto)]

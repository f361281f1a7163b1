// Definitions and theorems about a host's calls, and no code: specs/ and proofs/.
#![tactic(auto)]

// Definitions and theorems about a host's calls of the library, on its bytes, and no code: specs/ and proofs/.

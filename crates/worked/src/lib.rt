// Document 01's worked tables: a table in specs/, a theorem in proofs/, and no code.
#![tactic(auto)]

// example_theorem: Quay town, the worked example of document 01, as one theorem from its files' bytes
// (proofs/Town.antt, `quay_town`), over a table of rows (specs/Rows.antt). It has no code; the program
// `example_program` prints the same rows.
#![tactic(auto)]

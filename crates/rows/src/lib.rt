// The rows that choosing fills, as mathematics: each holds the best sets of a chain of records, and the last one is what the
// exhaustive search finds in every column. No code.
#![tactic(auto)]

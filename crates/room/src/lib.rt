// Why no commit runs out of notice numbers: every call leaves a number for every pending change that writes. Definitions and lemmas alone.
#![tactic(auto)]

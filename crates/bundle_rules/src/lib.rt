//! What contracts cite: places in a tree, what its names denote, the rules of linking and what a bundle is; and
//! lemmas over these. There is no code here.
#![tactic(auto)]

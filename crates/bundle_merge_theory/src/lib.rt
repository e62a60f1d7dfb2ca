//! Why a merged module is a bundle: right notes beside its elements give its meaning, and what the walk makes of an own
//! statement has the marks that the statement means; which items a bundle has and how they are laid out; that a bundle
//! whose items are noted right is one in each of its readings, and stays one when it is named, tidied and put into one
//! function's call. There is no code here.
#![tactic(auto)]

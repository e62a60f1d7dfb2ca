//! The list that reading a text makes: a record for each node, behind the records of all that lies in it; and
//! the reader that writes it.
#![tactic(auto)]

pub mod kind;
pub mod pattern;
pub mod reader;
pub mod record;

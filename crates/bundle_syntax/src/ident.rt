//! Identifiers, and the words that look like one.

use bundle_tree_names::SyntaxContext;

/// An identifier: its text, and the context that keeps it apart from others of that text
/// (ECMA-262, 13.1 IdentifierReference and BindingIdentifier).
#[derive(PartialEq, Drop, Debug)]
pub struct Ident {
    pub sym: String,
    pub ctxt: SyntaxContext,
}

/// A word that is no variable: a property, a key, a label (ECMA-262, 12.7 IdentifierName).
#[derive(PartialEq, Drop, Debug)]
pub struct IdentName {
    pub sym: String,
}

/// A private name of a class, written after a `#` (ECMA-262, 12.7 PrivateIdentifier).
#[derive(PartialEq, Drop, Debug)]
pub struct PrivateName {
    pub sym: String,
}

/// An identifier that stands as a pattern (ECMA-262, 14.3.3).
#[derive(PartialEq, Drop, Debug)]
pub struct BindingIdent {
    pub id: Ident,
}

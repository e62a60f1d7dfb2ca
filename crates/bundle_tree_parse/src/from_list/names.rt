//! Names and literals (ECMA-262, 12.7 and 13.2.3).

ghost use Rattle.bundle_syntax.specs.declared.piece.Role.TheVariants.{Binding, Word};
ghost use Rattle.bundle_tree_listed.specs.Tree.{big_int_items, binding_ident_items, ident_items, ident_name_items, lit_items, number_items, private_name_items, regex_items, str_items, tpl_element_items};
ghost use Rattle.bundle_tree_parse.specs.Sorts.{ABigInt, ABindingIdent, ALiteral, ANumber, APrivateName, ARegex, AString, ATextPart, AWord, AnIdent};

use crate::build::{BuildError, Builder};
use crate::from_list::FromList;
use bundle_syntax::Role;
use bundle_tree_ast::{
    BigInt, BindingIdent, Ident, IdentName, Lit, Number, PrivateName, Regex, Str, TplElement,
};

impl FromList for Ident {
    ghost sort = { AnIdent Word };

    ghost items = { ident_items Word };

    #[tactic(auto, using(crate::proofs::Parsing::building))]
    fn take<'p, 'a>(
        builder: &mut Builder<'p, 'a>,
        _room: usize,
        field: u8,
    ) -> Result<Ident, BuildError> {
        builder.ident(field, Role::Word)
    }
}

impl FromList for BindingIdent {
    ghost sort = { ABindingIdent Binding };

    ghost items = { binding_ident_items Binding };

    fn take<'p, 'a>(
        builder: &mut Builder<'p, 'a>,
        room: usize,
        field: u8,
    ) -> Result<BindingIdent, BuildError> {
        builder.binding_ident(room, field, Role::Binding)
    }
}

impl FromList for IdentName {
    ghost sort = { AWord };

    ghost items = { ident_name_items };

    fn take<'p, 'a>(
        builder: &mut Builder<'p, 'a>,
        room: usize,
        field: u8,
    ) -> Result<IdentName, BuildError> {
        builder.ident_name(room, field)
    }
}

impl FromList for PrivateName {
    ghost sort = { APrivateName };

    ghost items = { private_name_items };

    fn take<'p, 'a>(
        builder: &mut Builder<'p, 'a>,
        room: usize,
        field: u8,
    ) -> Result<PrivateName, BuildError> {
        builder.private_name(room, field)
    }
}

impl FromList for Str {
    ghost sort = { AString };

    ghost items = { str_items };

    fn take<'p, 'a>(
        builder: &mut Builder<'p, 'a>,
        room: usize,
        field: u8,
    ) -> Result<Str, BuildError> {
        builder.str(room, field)
    }
}

impl FromList for Number {
    ghost sort = { ANumber };

    ghost items = { number_items };

    #[tactic(auto, using(crate::proofs::Parsing::building))]
    fn take<'p, 'a>(
        builder: &mut Builder<'p, 'a>,
        room: usize,
        field: u8,
    ) -> Result<Number, BuildError> {
        let (node, _) = builder.enter(room, field)?;
        let it = builder.number_of(node);
        builder.leave(it)
    }
}

impl FromList for BigInt {
    ghost sort = { ABigInt };

    ghost items = { big_int_items };

    #[tactic(auto, using(crate::proofs::Parsing::building))]
    fn take<'p, 'a>(
        builder: &mut Builder<'p, 'a>,
        room: usize,
        field: u8,
    ) -> Result<BigInt, BuildError> {
        let (node, _) = builder.enter(room, field)?;
        let it = builder.big_int_of(node);
        builder.leave(it)
    }
}

impl FromList for Regex {
    ghost sort = { ARegex };

    ghost items = { regex_items };

    #[tactic(auto, using(crate::proofs::Parsing::building))]
    fn take<'p, 'a>(
        builder: &mut Builder<'p, 'a>,
        room: usize,
        field: u8,
    ) -> Result<Regex, BuildError> {
        let (node, _) = builder.enter(room, field)?;
        let it = builder.regex_of(node);
        builder.leave(it)
    }
}

impl FromList for Lit {
    ghost sort = { ALiteral };

    ghost items = { lit_items };

    #[tactic(auto, using(crate::proofs::Parsing::building))]
    fn take<'p, 'a>(
        builder: &mut Builder<'p, 'a>,
        room: usize,
        field: u8,
    ) -> Result<Lit, BuildError> {
        let (node, _) = builder.enter(room, field)?;
        let it = builder.lit_of(node);
        builder.leave(it)
    }
}

impl FromList for TplElement {
    ghost sort = { ATextPart };

    ghost items = { tpl_element_items };

    fn take<'p, 'a>(
        builder: &mut Builder<'p, 'a>,
        room: usize,
        field: u8,
    ) -> Result<TplElement, BuildError> {
        builder.tpl_element(room, field)
    }
}

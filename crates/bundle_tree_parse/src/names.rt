//! Names and literals (ECMA-262, 12.7 and 13.2.3).

ghost use Rattle.std.specs.Prelude.{◌≡◌, ℕ, Some, None, IfOk, IfErr, length, string_bytes};
ghost use Rattle.std.specs.List.{flat_map};
ghost use Rattle.bundle_syntax.specs.Item.{head_of};
ghost use Rattle.bundle_tree_parse.specs.declared.build.BuildError.TheVariants.{Form, OutOfMemory};
ghost use Rattle.bundle_tree_listed.specs.Tree.{big_int_items, binding_ident_items, ident_items, ident_name_items, lit_items, number_items, option_items, private_name_items, regex_items, str_items, tpl_element_items};
ghost use Rattle.bundle_tree_parse.specs.Built.{Builds, BuildsNode, BuildsLeaf};
ghost use Rattle.bundle_tree_parse.specs.Sorts.{ABindingIdent, AWord, APrivateName, AString, ANumber, ABigInt, ARegex, ALiteral, ATextPart, holds};
ghost use Rattle.bundle_tree_parse.specs.Parse.{after_ident, after_maybe, after_each, after_inside, taken};

use crate::build::{BuildError, Builder};
use bundle_syntax::{Node, Role};
use bundle_tree_ast::{
    BigInt, BindingIdent, Ident, IdentName, Lit, Number, PrivateName, Regex, Str, TplElement,
};
use bundle_tree_names::SyntaxContext;

impl<'p, 'a> Builder<'p, 'a> {
    #[tactic(auto, using(crate::proofs::Parsing::parsing))]
    fn text(&self, text: &str) -> Result<String, BuildError>
        ensures text { IfOk result (λ made. string_bytes made ≡ text.now) }
        ensures refused { IfErr result (λ why. why ≡ OutOfMemory) }
    {
        Ok(String::from_str(self.alloc, text)?)
    }

    #[tactic(auto, using(crate::proofs::Parsing::parsing))]
    pub(crate) fn ident(&mut self, field: u8, role: Role) -> Result<Ident, BuildError>
        ensures { Builds result (ident_items role field)
            (after_ident role field self.old) self.old self.new }
    {
        let (sym, ctxt) = self.take_ident(field, role)?;
        let sym = self.text(sym)?;
        Ok(Ident {
            sym,
            ctxt: SyntaxContext::from_u32(ctxt),
        })
    }

    #[tactic(auto, using(crate::proofs::Parsing::parsing))]
    pub(crate) fn option_ident(
        &mut self,
        field: u8,
        role: Role,
    ) -> Result<Option<Ident>, BuildError>
        ensures { Builds result (option_items (ident_items role field))
            (after_maybe (after_ident role field) field self.old) self.old self.new }
    {
        if self.is_in(field) {
            Ok(Some(self.ident(field, role)?))
        } else {
            Ok(None)
        }
    }

    #[tactic(auto, using(crate::proofs::Parsing::parsing))]
    pub(crate) fn binding_ident(
        &mut self,
        room: usize,
        field: u8,
        role: Role,
    ) -> Result<BindingIdent, BuildError>
        ensures { Builds result (binding_ident_items role field)
            (taken room (ABindingIdent role) field self.old) self.old self.new }
    {
        let (node, _) = self.enter(room, field)?;
        let it = self.binding_ident_of(node, role);
        self.leave(it)
    }

    #[tactic(auto, using(crate::proofs::Parsing::parsing))]
    pub(crate) fn binding_ident_of(
        &mut self,
        node: Node<'a>,
        role: Role,
    ) -> Result<BindingIdent, BuildError>
        ensures { (room : ℕ) → BuildsNode result (binding_ident_items role) (head_of node.entry)
            (after_inside (taken room) (holds (ABindingIdent role) (head_of node.entry)) self.old)
            self.old self.new }
    {
        match node {
            Node::BindingIdent => {
                let id = self.ident(0, role)?;
                Ok(BindingIdent { id })
            }
            _ => Err(BuildError::Form),
        }
    }

    #[tactic(auto, using(crate::proofs::Parsing::parsing))]
    pub(crate) fn ident_name(&mut self, room: usize, field: u8) -> Result<IdentName, BuildError>
        ensures { Builds result (ident_name_items field)
            (taken room AWord field self.old) self.old self.new }
    {
        let (node, _) = self.enter(room, field)?;
        let it = self.ident_name_of(node);
        self.leave(it)
    }

    #[tactic(auto, using(crate::proofs::Parsing::parsing))]
    pub(crate) fn ident_name_of(&self, node: Node<'a>) -> Result<IdentName, BuildError>
        ensures { BuildsLeaf result ident_name_items (head_of node.entry)
            (holds AWord (head_of node.entry)) }
    {
        match node {
            Node::IdentName { sym } => Ok(IdentName {
                sym: self.text(sym)?,
            }),
            _ => Err(BuildError::Form),
        }
    }

    #[tactic(auto, using(crate::proofs::Parsing::parsing))]
    pub(crate) fn option_ident_name(
        &mut self,
        room: usize,
        field: u8,
    ) -> Result<Option<IdentName>, BuildError>
        ensures { Builds result (option_items (ident_name_items field))
            (after_maybe (taken room AWord field) field self.old) self.old self.new }
    {
        if self.is_in(field) {
            Ok(Some(self.ident_name(room, field)?))
        } else {
            Ok(None)
        }
    }

    #[tactic(auto, using(crate::proofs::Parsing::parsing))]
    pub(crate) fn private_name(&mut self, room: usize, field: u8) -> Result<PrivateName, BuildError>
        ensures { Builds result (private_name_items field)
            (taken room APrivateName field self.old) self.old self.new }
    {
        let (node, _) = self.enter(room, field)?;
        let it = self.private_name_of(node);
        self.leave(it)
    }

    #[tactic(auto, using(crate::proofs::Parsing::parsing))]
    pub(crate) fn private_name_of(&self, node: Node<'a>) -> Result<PrivateName, BuildError>
        ensures { BuildsLeaf result private_name_items (head_of node.entry)
            (holds APrivateName (head_of node.entry)) }
    {
        match node {
            Node::PrivateName { sym } => Ok(PrivateName {
                sym: self.text(sym)?,
            }),
            _ => Err(BuildError::Form),
        }
    }

    #[tactic(auto, using(crate::proofs::Parsing::parsing))]
    pub(crate) fn str(&mut self, room: usize, field: u8) -> Result<Str, BuildError>
        ensures { Builds result (str_items field)
            (taken room AString field self.old) self.old self.new }
    {
        let (node, _) = self.enter(room, field)?;
        let it = self.str_of(node);
        self.leave(it)
    }

    #[tactic(auto, using(crate::proofs::Parsing::parsing))]
    pub(crate) fn str_of(&self, node: Node<'a>) -> Result<Str, BuildError>
        ensures { BuildsLeaf result str_items (head_of node.entry)
            (holds AString (head_of node.entry)) }
    {
        match node {
            Node::Str { value, raw } => {
                let value = self.text(value)?;
                let raw = match raw {
                    Some(raw) => Some(self.text(raw)?),
                    None => None,
                };
                Ok(Str { value, raw })
            }
            _ => Err(BuildError::Form),
        }
    }

    #[tactic(auto, using(crate::proofs::Parsing::parsing))]
    pub(crate) fn number_of(&self, node: Node<'a>) -> Result<Number, BuildError>
        ensures { BuildsLeaf result number_items (head_of node.entry)
            (holds ANumber (head_of node.entry)) }
    {
        match node {
            Node::Number { raw } => Ok(Number {
                raw: self.text(raw)?,
            }),
            _ => Err(BuildError::Form),
        }
    }

    #[tactic(auto, using(crate::proofs::Parsing::parsing))]
    pub(crate) fn big_int_of(&self, node: Node<'a>) -> Result<BigInt, BuildError>
        ensures { BuildsLeaf result big_int_items (head_of node.entry)
            (holds ABigInt (head_of node.entry)) }
    {
        match node {
            Node::BigInt { raw } => Ok(BigInt {
                raw: self.text(raw)?,
            }),
            _ => Err(BuildError::Form),
        }
    }

    #[tactic(auto, using(crate::proofs::Parsing::parsing))]
    pub(crate) fn regex_of(&self, node: Node<'a>) -> Result<Regex, BuildError>
        ensures { BuildsLeaf result regex_items (head_of node.entry)
            (holds ARegex (head_of node.entry)) }
    {
        match node {
            Node::Regex { raw } => Ok(Regex {
                raw: self.text(raw)?,
            }),
            _ => Err(BuildError::Form),
        }
    }

    #[tactic(auto, using(crate::proofs::Parsing::parsing))]
    pub(crate) fn lit_of(&self, node: Node<'a>) -> Result<Lit, BuildError>
        ensures { BuildsLeaf result lit_items (head_of node.entry)
            (holds ALiteral (head_of node.entry)) }
    {
        match node {
            Node::Str { .. } => Ok(Lit::Str(self.str_of(node)?)),
            Node::Bool { value } => Ok(Lit::Bool { value }),
            Node::Null => Ok(Lit::Null),
            Node::Number { .. } => Ok(Lit::Number(self.number_of(node)?)),
            Node::BigInt { .. } => Ok(Lit::BigInt(self.big_int_of(node)?)),
            Node::Regex { .. } => Ok(Lit::Regex(self.regex_of(node)?)),
            _ => Err(BuildError::Form),
        }
    }

    #[tactic(auto, using(crate::proofs::Parsing::parsing))]
    pub(crate) fn tpl_element(&mut self, room: usize, field: u8) -> Result<TplElement, BuildError>
        ensures { Builds result (tpl_element_items field)
            (taken room ATextPart field self.old) self.old self.new }
    {
        let (node, _) = self.enter(room, field)?;
        let it = self.tpl_element_of(node);
        self.leave(it)
    }

    #[tactic(auto, using(crate::proofs::Parsing::parsing))]
    fn tpl_element_of(&self, node: Node<'a>) -> Result<TplElement, BuildError>
        ensures { BuildsLeaf result tpl_element_items (head_of node.entry)
            (holds ATextPart (head_of node.entry)) }
    {
        match node {
            Node::TplElement { raw } => Ok(TplElement {
                raw: self.text(raw)?,
            }),
            _ => Err(BuildError::Form),
        }
    }

    #[tactic(auto, using(crate::proofs::Parsing::parsing))]
    pub(crate) fn each_tpl_element(
        &mut self,
        room: usize,
        field: u8,
    ) -> Result<Vec<TplElement>, BuildError>
        ensures { Builds result (λ made. flat_map (tpl_element_items field) made.items)
            (after_each (taken room ATextPart field) field (length self.old) self.old)
            self.old self.new }
    {
        let mut list = Vec::new(self.alloc);
        let most = self.most();
        for count in 0..most {
            if !self.is_in(field) {
                break;
            }
            let it = self.tpl_element(room, field)?;
            list.push(it)?;
        }
        list.shrink_to_fit();
        Ok(list)
    }
}

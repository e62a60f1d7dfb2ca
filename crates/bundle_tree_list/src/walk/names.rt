//! Names and literals.

ghost use Rattle.std.specs.Prelude.{◌≡◌, ◌++◌, OnOk};
ghost use Rattle.std.specs.List.{flat_map};
ghost use Rattle.bundle_tree_listed.specs.Tree.{big_int_items, binding_ident_items, ident_items, ident_name_items, lit_items, number_items, option_items, private_name_items, regex_items, str_items, tpl_element_items};

use crate::walk::Walk;
use bundle_syntax::{Node, Role};
use bundle_tree_ast::{
    BigInt, BindingIdent, Ident, IdentName, Lit, Number, PrivateName, Regex, Str, TplElement,
};
use std::alloc::AllocError;

impl<'a> Walk<'a> {
    /// Adds the list of a word. Refused only where memory runs out.
    pub fn ident_name(&mut self, field: u8, ident_name: &'a IdentName) -> Result<(), AllocError>
        ensures { OnOk result (self.new ≡ self.old ++ ident_name_items field ident_name.now) }
    {
        self.open(
            field,
            Node::IdentName {
                sym: ident_name.sym.as_str(),
            },
        )?;
        self.close()
    }

    pub(crate) fn option_ident_name(
        &mut self,
        field: u8,
        choice: &'a Option<IdentName>,
    ) -> Result<(), AllocError>
        ensures { OnOk result
            (self.new ≡ self.old ++ option_items (ident_name_items field) choice.now) }
    {
        match choice {
            Some(ident_name) => self.ident_name(field, ident_name),
            None => Ok(()),
        }
    }

    /// Adds the list of a private name. Refused only where memory runs out.
    pub fn private_name(
        &mut self,
        field: u8,
        private_name: &'a PrivateName,
    ) -> Result<(), AllocError>
        ensures { OnOk result (self.new ≡ self.old ++ private_name_items field private_name.now) }
    {
        self.open(
            field,
            Node::PrivateName {
                sym: private_name.sym.as_str(),
            },
        )?;
        self.close()
    }

    /// Adds the list of a name that is bound or assigned, in this role. Refused only where memory runs out.
    pub fn binding_ident(
        &mut self,
        field: u8,
        role: Role,
        binding_ident: &'a BindingIdent,
    ) -> Result<(), AllocError>
        ensures { OnOk result
            (self.new ≡ self.old ++ binding_ident_items role field binding_ident.now) }
    {
        self.open(field, Node::BindingIdent)?;
        self.ident(0, role, &binding_ident.id)?;
        self.close()
    }

    /// Adds the list of a string. Refused only where memory runs out.
    pub fn str(&mut self, field: u8, str: &'a Str) -> Result<(), AllocError>
        ensures { OnOk result (self.new ≡ self.old ++ str_items field str.now) }
    {
        self.open(
            field,
            Node::Str {
                value: str.value.as_str(),
                raw: str.raw.as_deref(),
            },
        )?;
        self.close()
    }

    pub(crate) fn option_str(
        &mut self,
        field: u8,
        choice: &'a Option<Str>,
    ) -> Result<(), AllocError>
        ensures { OnOk result (self.new ≡ self.old ++ option_items (str_items field) choice.now) }
    {
        match choice {
            Some(str) => self.str(field, str),
            None => Ok(()),
        }
    }

    /// Adds the list of a number. Refused only where memory runs out.
    pub fn number(&mut self, field: u8, number: &'a Number) -> Result<(), AllocError>
        ensures { OnOk result (self.new ≡ self.old ++ number_items field number.now) }
    {
        self.open(
            field,
            Node::Number {
                raw: number.raw.as_str(),
            },
        )?;
        self.close()
    }

    /// Adds the list of a big integer. Refused only where memory runs out.
    pub fn big_int(&mut self, field: u8, big_int: &'a BigInt) -> Result<(), AllocError>
        ensures { OnOk result (self.new ≡ self.old ++ big_int_items field big_int.now) }
    {
        self.open(
            field,
            Node::BigInt {
                raw: big_int.raw.as_str(),
            },
        )?;
        self.close()
    }

    /// Adds the list of a regular expression. Refused only where memory runs out.
    pub fn regex(&mut self, field: u8, regex: &'a Regex) -> Result<(), AllocError>
        ensures { OnOk result (self.new ≡ self.old ++ regex_items field regex.now) }
    {
        self.open(
            field,
            Node::Regex {
                raw: regex.raw.as_str(),
            },
        )?;
        self.close()
    }

    /// Adds the list of a literal. Refused only where memory runs out.
    pub fn lit(&mut self, field: u8, lit: &'a Lit) -> Result<(), AllocError>
        ensures { OnOk result (self.new ≡ self.old ++ lit_items field lit.now) }
    {
        match lit {
            Lit::Str(it) => self.str(field, it),
            Lit::Bool { value } => {
                self.open(field, Node::Bool { value: *value })?;
                self.close()
            }
            Lit::Null => {
                self.open(field, Node::Null)?;
                self.close()
            }
            Lit::Number(it) => self.number(field, it),
            Lit::BigInt(it) => self.big_int(field, it),
            Lit::Regex(it) => self.regex(field, it),
        }
    }

    /// Adds the list of a text of a template. Refused only where memory runs out.
    pub fn tpl_element(&mut self, field: u8, tpl_element: &'a TplElement) -> Result<(), AllocError>
        ensures { OnOk result (self.new ≡ self.old ++ tpl_element_items field tpl_element.now) }
    {
        self.open(
            field,
            Node::TplElement {
                raw: tpl_element.raw.as_str(),
            },
        )?;
        self.close()
    }

    #[tactic(auto, using(bundle_tree_listed::proofs::Rows::rows))]
    pub(crate) fn each_tpl_element(
        &mut self,
        field: u8,
        list: &'a Vec<TplElement>,
    ) -> Result<(), AllocError>
        ensures { OnOk result
            (self.new ≡ self.old ++ flat_map (tpl_element_items field) list.now.items) }
    {
        for element in list {
            self.tpl_element(field, element)?;
        }
        Ok(())
    }

    pub(crate) fn option_ident(
        &mut self,
        field: u8,
        role: Role,
        choice: &'a Option<Ident>,
    ) -> Result<(), AllocError>
        ensures { OnOk result
            (self.new ≡ self.old ++ option_items (ident_items role field) choice.now) }
    {
        match choice {
            Some(ident) => self.ident(field, role, ident),
            None => Ok(()),
        }
    }
}

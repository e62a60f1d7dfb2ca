//! Imports of externals, and exports.

ghost use Rattle.std.specs.Prelude.{◌≡◌, ◌++◌, OnOk, map};
ghost use Rattle.bundle_rules.specs.Statements as statements;
ghost use Rattle.bundle_tree_places.specs.Marks.{ident_of};
ghost use Rattle.bundle_merge_injected.specs.Listed as listed;
ghost use Rattle.bundle_merge_injected.specs.Listed.{pair_of};

use super::PieceWriter;
use crate::name::Pair;
use bundle_syntax::{ExportMetadata, Node, Piece, Role};
use bundle_tree_places::{Name, is_ascii_identifier};
use std::alloc::AllocError;

impl<'a> PieceWriter<'a> {
    /// `import { n as l, .. } from 'specifier';` (ECMA-262, 16.2.2).
    pub fn import_names<'b: 'a>(
        &mut self,
        specifier: &'a str,
        names: &[Pair<'b>],
        no_notes: &'a ExportMetadata,
    ) -> Result<(), AllocError>
        requires { no_notes.now ≡ statements.no_notes }
        ensures { OnOk result
            (self.new ≡ self.old ++ listed.import_names specifier.now (map pair_of names.now)) }
    {
        self.add(&[open!(0, Node::ImportDecl { meta: no_notes })])?;
        for pair in names {
            self.import_specifier(*pair)?;
        }
        self.add(&[string!(1, specifier), Piece::Close, Piece::Close])
    }

    // `n as l`
    fn import_specifier(&mut self, pair: Pair<'a>) -> Result<(), AllocError>
        ensures { OnOk result
            (self.new ≡ self.old ++ listed.import_specifier (pair_of pair.entry)) }
    {
        self.add(&[
            open!(0, Node::ImportNamedSpecifier),
            name!(0, pair.local, Role::Binding),
        ])?;
        self.export_name(pair.name)?;
        self.add(&[Piece::Close])
    }

    /// `import * as l from 'specifier';` (ECMA-262, 16.2.2).
    pub fn import_whole(
        &mut self,
        specifier: &'a str,
        name: Name<'a>,
        no_notes: &'a ExportMetadata,
    ) -> Result<(), AllocError>
        requires { no_notes.now ≡ statements.no_notes }
        ensures { OnOk result
            (self.new ≡ self.old ++ listed.import_whole specifier.now (ident_of name.entry)) }
    {
        self.add(&[
            open!(0, Node::ImportDecl { meta: no_notes }),
            open!(0, Node::ImportStarAsSpecifier),
            name!(0, name, Role::Binding),
            Piece::Close,
            string!(1, specifier),
            Piece::Close,
            Piece::Close,
        ])
    }

    /// `import 'specifier';` (ECMA-262, 16.2.2).
    pub fn import_bare(
        &mut self,
        specifier: &'a str,
        no_notes: &'a ExportMetadata,
    ) -> Result<(), AllocError>
        requires { no_notes.now ≡ statements.no_notes }
        ensures { OnOk result (self.new ≡ self.old ++ listed.import_bare specifier.now) }
    {
        self.add(&[
            open!(0, Node::ImportDecl { meta: no_notes }),
            string!(1, specifier),
            Piece::Close,
            Piece::Close,
        ])
    }

    /// `export * from 'specifier';` (ECMA-262, 16.2.3).
    pub fn export_star(
        &mut self,
        specifier: &'a str,
        no_notes: &'a ExportMetadata,
    ) -> Result<(), AllocError>
        requires { no_notes.now ≡ statements.no_notes }
        ensures { OnOk result (self.new ≡ self.old ++ listed.export_star specifier.now) }
    {
        self.add(&[
            open!(0, Node::ExportAll { meta: no_notes }),
            string!(0, specifier),
            Piece::Close,
            Piece::Close,
        ])
    }

    /// `export { l as n, .. };` (ECMA-262, 16.2.3).
    pub fn export_list<'b: 'a>(
        &mut self,
        names: &[Pair<'b>],
        no_notes: &'a ExportMetadata,
    ) -> Result<(), AllocError>
        requires { no_notes.now ≡ statements.no_notes }
        ensures { OnOk result
            (self.new ≡ self.old ++ listed.export_list (map pair_of names.now)) }
    {
        self.add(&[open!(0, Node::NamedExport { meta: no_notes })])?;
        for pair in names {
            self.export_specifier(*pair)?;
        }
        self.add(&[Piece::Close])
    }

    // `l as n`
    fn export_specifier(&mut self, pair: Pair<'a>) -> Result<(), AllocError>
        ensures { OnOk result
            (self.new ≡ self.old ++ listed.export_specifier (pair_of pair.entry)) }
    {
        self.add(&[
            open!(0, Node::ExportNamedSpecifier),
            name!(0, pair.local, Role::Reference),
        ])?;
        self.export_name(pair.name)?;
        self.add(&[Piece::Close])
    }

    // The name of an import or an export, in field 1: a word where it is an identifier of ASCII letters and digits,
    // else a string (ECMA-262, 16.2 ModuleExportName).
    fn export_name(&mut self, name: &'a str) -> Result<(), AllocError>
        ensures { OnOk result (self.new ≡ self.old ++ listed.export_name_in 1 name.now) }
    {
        if is_ascii_identifier(name) {
            let word = Name { sym: name, ctxt: 0 };
            self.add(&[name!(1, word, Role::Word)])
        } else {
            self.add(&[string!(1, name), Piece::Close])
        }
    }
}

//! Modules, imports and exports (ECMA-262, 16.2).

ghost use Rattle.std.specs.Prelude.{◌+◌, ◌-◌, ◌^◌, ◌<◌, ◌≤◌, ◌≡◌, Some, None, length, zero};
ghost use Rattle.std.specs.List.{flat_map};
ghost use Rattle.bundle_syntax.specs.Item.{item_of, head_of, Open, Close, NamedExport};
ghost use Rattle.bundle_tree_parse.specs.declared.build.BuildError.TheVariants.{Form};
ghost use Rattle.bundle_tree_listed.specs.Tree.{default_decl_items, export_specifier_items, import_specifier_items, module_decl_items, module_export_name_items, module_item_items, module_items, option_items};
ghost use Rattle.bundle_tree_parse.specs.Built.{Builds, BuildsNode};
ghost use Rattle.bundle_tree_parse.specs.Sorts.{AModule, AnItem, AModuleDecl, AnImport, AnExport, AModuleName, ADefault, Exports, holds};
ghost use Rattle.bundle_tree_parse.specs.Parse.{after_maybe, after_each, after_inside, taken};
ghost use Rattle.bundle_tree_parse.specs.Parse as parse;

use crate::build::{BuildError, Builder};
use bundle_syntax::{Node, Piece, Role};
use bundle_tree_ast::{
    DefaultDecl, ExportMetadata, ExportSpecifier, ImportSpecifier, Module, ModuleDecl,
    ModuleExportName, ModuleItem,
};

impl<'p, 'a> Builder<'p, 'a> {
    #[tactic(auto, using(crate::proofs::Parsing::building))]
    pub(crate) fn module(&mut self, room: usize, field: u8) -> Result<Module, BuildError>
        ensures { Builds result (module_items field)
            (taken room AModule field self.old) self.old self.new }
    {
        let (node, room) = self.enter(room, field)?;
        let it = self.module_of(room, node);
        self.leave(it)
    }

    #[tactic(auto, using(crate::proofs::Parsing::building))]
    fn module_of(&mut self, room: usize, node: Node<'a>) -> Result<Module, BuildError>
        ensures { BuildsNode result module_items (head_of node.entry)
            (after_inside (taken room) (holds AModule (head_of node.entry)) self.old)
            self.old self.new }
    {
        match node {
            Node::Module => {
                let body = self.each(room, 0)?;
                Ok(Module { body })
            }
            _ => Err(BuildError::Form),
        }
    }

    #[tactic(auto, using(crate::proofs::Parsing::building))]
    pub(crate) fn module_item(&mut self, room: usize, field: u8) -> Result<ModuleItem, BuildError>
        ensures { Builds result (module_item_items field)
            (taken room AnItem field self.old) self.old self.new }
    {
        let (node, room) = self.enter(room, field)?;
        let it = self.module_item_of(room, node);
        self.leave(it)
    }

    #[tactic(auto, using(crate::proofs::Parsing::building))]
    fn module_item_of(&mut self, room: usize, node: Node<'a>) -> Result<ModuleItem, BuildError>
        ensures { BuildsNode result module_item_items (head_of node.entry)
            (after_inside (taken room) (holds AnItem (head_of node.entry)) self.old)
            self.old self.new }
    {
        match node {
            Node::ImportDecl { .. }
            | Node::ExportDecl
            | Node::NamedExport { .. }
            | Node::ExportDefaultDecl
            | Node::ExportDefaultExpr
            | Node::ExportAll { .. } => Ok(ModuleItem::ModuleDecl(self.module_decl_of(
                room, node,
            )?)),
            _ => Ok(ModuleItem::Stmt(self.stmt_of(room, node)?)),
        }
    }

    #[tactic(auto, using(crate::proofs::Parsing::building))]
    pub(crate) fn module_decl_of(
        &mut self,
        room: usize,
        node: Node<'a>,
    ) -> Result<ModuleDecl, BuildError>
        ensures { BuildsNode result module_decl_items (head_of node.entry)
            (after_inside (taken room) (holds AModuleDecl (head_of node.entry)) self.old)
            self.old self.new }
    {
        match node {
            Node::ImportDecl { meta } => {
                let specifiers = self.each(room, 0)?;
                let src = self.str(room, 1)?;
                Ok(ModuleDecl::ImportDecl {
                    specifiers,
                    src,
                    meta: *meta,
                })
            }
            Node::NamedExport { meta } => self.named_export(room, *meta),
            Node::ExportAll { meta } => {
                let src = self.str(room, 0)?;
                Ok(ModuleDecl::ExportAll { src, meta: *meta })
            }
            Node::ExportDecl => {
                let decl = self.decl(room, 0)?;
                Ok(ModuleDecl::ExportDecl { decl })
            }
            Node::ExportDefaultDecl => {
                let decl = self.default_decl(room, 0)?;
                Ok(ModuleDecl::ExportDefaultDecl { decl })
            }
            Node::ExportDefaultExpr => {
                let expr = self.expr(room, 0)?;
                Ok(ModuleDecl::ExportDefaultExpr { expr })
            }
            _ => Err(BuildError::Form),
        }
    }

    #[tactic(auto, using(crate::proofs::Parsing::building))]
    pub(crate) fn import_specifier(
        &mut self,
        room: usize,
        field: u8,
    ) -> Result<ImportSpecifier, BuildError>
        ensures { Builds result (import_specifier_items field)
            (taken room AnImport field self.old) self.old self.new }
    {
        let (node, room) = self.enter(room, field)?;
        let it = self.import_specifier_of(room, node);
        self.leave(it)
    }

    #[tactic(auto, using(crate::proofs::Parsing::building))]
    fn import_specifier_of(
        &mut self,
        room: usize,
        node: Node<'a>,
    ) -> Result<ImportSpecifier, BuildError>
        ensures { BuildsNode result import_specifier_items (head_of node.entry)
            (after_inside (taken room) (holds AnImport (head_of node.entry)) self.old)
            self.old self.new }
    {
        match node {
            Node::ImportNamedSpecifier => {
                let local = self.ident(0, Role::Binding)?;
                let imported = self.option_module_export_name(room, 1, Role::Word)?;
                Ok(ImportSpecifier::ImportNamedSpecifier { local, imported })
            }
            Node::ImportDefaultSpecifier => {
                let local = self.ident(0, Role::Binding)?;
                Ok(ImportSpecifier::ImportDefaultSpecifier { local })
            }
            Node::ImportStarAsSpecifier => {
                let local = self.ident(0, Role::Binding)?;
                Ok(ImportSpecifier::ImportStarAsSpecifier { local })
            }
            _ => Err(BuildError::Form),
        }
    }

    // The names are words of another module where there is a source, which comes after them.
    #[tactic(auto, using(crate::proofs::Parsing::building))]
    fn named_export(&mut self, room: usize, meta: ExportMetadata) -> Result<ModuleDecl, BuildError>
        ensures { BuildsNode result module_decl_items (NamedExport meta)
            (after_inside (taken room) Exports self.old) self.old self.new }
    {
        if self.has_source() {
            let specifiers = self.each_export_specifier(room, 0, Role::Word)?;
            let src = self.str(room, 1)?;
            Ok(ModuleDecl::NamedExport {
                specifiers,
                src: Some(src),
                meta,
            })
        } else {
            let specifiers = self.each_export_specifier(room, 0, Role::Reference)?;
            Ok(ModuleDecl::NamedExport {
                specifiers,
                src: None,
                meta,
            })
        }
    }

    // Whether the export list that is open has a source.
    #[tactic(auto, using(crate::proofs::Parsing::building))]
    fn has_source(&self) -> bool
        ensures { result ≡ parse.has_source zero self.now }
    {
        let pieces = self.pieces;
        let mut depth: usize = 0;
        for place in 0..pieces.len() {
            let piece = pieces[place];
            if is_source(depth, piece) {
                return true;
            }
            if is_end(depth, piece) {
                return false;
            }
            depth = depth_behind(depth, piece);
        }
        false
    }

    #[tactic(auto, using(crate::proofs::Parsing::building))]
    fn each_export_specifier(
        &mut self,
        room: usize,
        field: u8,
        role: Role,
    ) -> Result<Vec<ExportSpecifier>, BuildError>
        ensures { Builds result (λ made. flat_map (export_specifier_items role field) made.items)
            (after_each (taken room (AnExport role) field) field (length self.old) self.old)
            self.old self.new }
    {
        let mut list = Vec::new(self.alloc);
        let most = self.most();
        for count in 0..most {
            if !self.is_in(field) {
                break;
            }
            let it = self.export_specifier(room, field, role)?;
            list.push(it)?;
        }
        list.shrink_to_fit();
        Ok(list)
    }

    #[tactic(auto, using(crate::proofs::Parsing::building))]
    pub(crate) fn export_specifier(
        &mut self,
        room: usize,
        field: u8,
        role: Role,
    ) -> Result<ExportSpecifier, BuildError>
        ensures { Builds result (export_specifier_items role field)
            (taken room (AnExport role) field self.old) self.old self.new }
    {
        let (node, room) = self.enter(room, field)?;
        let it = self.export_specifier_of(room, node, role);
        self.leave(it)
    }

    #[tactic(auto, using(crate::proofs::Parsing::building))]
    fn export_specifier_of(
        &mut self,
        room: usize,
        node: Node<'a>,
        role: Role,
    ) -> Result<ExportSpecifier, BuildError>
        ensures { BuildsNode result (export_specifier_items role) (head_of node.entry)
            (after_inside (taken room) (holds (AnExport role) (head_of node.entry)) self.old)
            self.old self.new }
    {
        match node {
            Node::ExportNamespaceSpecifier => {
                let name = self.module_export_name(room, 0, Role::Word)?;
                Ok(ExportSpecifier::ExportNamespaceSpecifier { name })
            }
            Node::ExportNamedSpecifier => {
                let orig = self.module_export_name(room, 0, role)?;
                let exported = self.option_module_export_name(room, 1, Role::Word)?;
                Ok(ExportSpecifier::ExportNamedSpecifier { orig, exported })
            }
            _ => Err(BuildError::Form),
        }
    }

    #[tactic(auto, using(crate::proofs::Parsing::parsing))]
    pub(crate) fn module_export_name(
        &mut self,
        room: usize,
        field: u8,
        role: Role,
    ) -> Result<ModuleExportName, BuildError>
        ensures { Builds result (module_export_name_items role field)
            (taken room (AModuleName role) field self.old) self.old self.new }
    {
        if self.is_ident() {
            Ok(ModuleExportName::Ident(self.ident(field, role)?))
        } else {
            Ok(ModuleExportName::Str(self.str(room, field)?))
        }
    }

    #[tactic(auto, using(crate::proofs::Parsing::building))]
    fn option_module_export_name(
        &mut self,
        room: usize,
        field: u8,
        role: Role,
    ) -> Result<Option<ModuleExportName>, BuildError>
        ensures { Builds result (option_items (module_export_name_items role field))
            (after_maybe (taken room (AModuleName role) field) field self.old) self.old self.new }
    {
        if self.is_in(field) {
            Ok(Some(self.module_export_name(room, field, role)?))
        } else {
            Ok(None)
        }
    }

    #[tactic(auto, using(crate::proofs::Parsing::building))]
    pub(crate) fn default_decl(&mut self, room: usize, field: u8) -> Result<DefaultDecl, BuildError>
        ensures { Builds result (default_decl_items field)
            (taken room ADefault field self.old) self.old self.new }
    {
        let (node, room) = self.enter(room, field)?;
        let it = self.default_decl_of(room, node);
        self.leave(it)
    }

    #[tactic(auto, using(crate::proofs::Parsing::building))]
    fn default_decl_of(&mut self, room: usize, node: Node<'a>) -> Result<DefaultDecl, BuildError>
        ensures { BuildsNode result default_decl_items (head_of node.entry)
            (after_inside (taken room) (holds ADefault (head_of node.entry)) self.old)
            self.old self.new }
    {
        match node {
            Node::ClassExpr => {
                let ident = self.option_ident(0, Role::Binding)?;
                let class = self.class(room, 1)?;
                Ok(DefaultDecl::ClassExpr { ident, class })
            }
            Node::FnExpr => {
                let ident = self.option_ident(0, Role::Binding)?;
                let function = self.function(room, 1)?;
                Ok(DefaultDecl::FnExpr { ident, function })
            }
            _ => Err(BuildError::Form),
        }
    }
}

// Whether the source of an export list begins here, so many nodes deep in it.
#[tactic(auto, using(crate::proofs::Parsing::parsing))]
fn is_source(depth: usize, piece: Piece) -> bool
    ensures { result ≡ parse.is_source depth (item_of piece.entry) }
{
    match piece {
        Piece::Open { field, .. } => depth == 0 && field == 1,
        _ => false,
    }
}

// Whether the node around ends here, so many nodes deep in it.
#[tactic(auto, using(crate::proofs::Parsing::parsing))]
fn is_end(depth: usize, piece: Piece) -> bool
    ensures { result ≡ parse.is_end depth (item_of piece.entry) }
{
    match piece {
        Piece::Close => depth == 0,
        _ => false,
    }
}

// How many nodes deep what follows is.
#[tactic(auto, using(crate::proofs::Parsing::parsing))]
fn depth_behind(depth: usize, piece: Piece) -> usize
    requires { depth < 2 ^ 64 - 1 }
    ensures behind { result ≡ parse.depth_behind depth (item_of piece.entry) }
    ensures bound { result ≤ depth + 1 }
{
    match piece {
        Piece::Open { .. } => depth + 1,
        Piece::Close if depth == 0 => 0,
        Piece::Close => depth - 1,
        _ => depth,
    }
}

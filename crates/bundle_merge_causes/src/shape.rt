//! What of a module tells how many items it makes.

ghost use Rattle.std.specs.Prelude.{◌≡◌, count_by, length};
ghost use Rattle.bundle_rules.specs.Statements.{own_statements};
ghost use Rattle.bundle_tree_listed.specs.Tree.{module_items};
ghost use Rattle.bundle_merge_causes.specs.Shape.{states, declares};

use bundle_tree_ast::{Module, ModuleDecl, ModuleItem, Stmt};

/// Whether a module has an `import.meta`, and how many statements it has of its own.
#[derive(Clone, Copy)]
pub struct ModuleShape {
    pub has_import_meta: bool,
    pub statements: usize,
}

/// How many statements a module has of its own (ECMA-262, 16.2.3.7): its top items but imports, lists of exports, stars
/// and empty statements.
pub fn statement_count(tree: &Module) -> usize
    ensures { result ≡ length (own_statements (module_items 0 tree.now)) }
{
    stated_count(&tree.body)
}

// How many of these items state something.
fn stated_count(items: &[ModuleItem]) -> usize
    ensures { result ≡ count_by states items.now }
{
    let mut count: usize = 0;
    for item in items {
        if is_stated(item) {
            count = count.saturating_add(1);
        }
    }
    count
}

/// Whether a top item of a module states something in a bundle.
pub fn is_stated(item: &ModuleItem) -> bool
    ensures { result ≡ states item.now }
{
    match item {
        ModuleItem::Stmt(stmt) => !matches!(stmt, Stmt::EmptyStmt),
        ModuleItem::ModuleDecl(decl) => is_declared(decl),
    }
}

// Whether an import or export declares something by itself.
fn is_declared(decl: &ModuleDecl) -> bool
    ensures { result ≡ declares decl.now }
{
    match decl {
        ModuleDecl::ImportDecl { .. } => false,
        ModuleDecl::NamedExport { .. } => false,
        ModuleDecl::ExportAll { .. } => false,
        ModuleDecl::ExportDecl { .. } => true,
        ModuleDecl::ExportDefaultDecl { .. } => true,
        ModuleDecl::ExportDefaultExpr { .. } => true,
    }
}

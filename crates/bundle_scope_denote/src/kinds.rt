//! What each kind of node means for the names in it: which scope it makes, and how it declares.

ghost use Rattle.std.specs.Prelude.{◌≡◌, ℕ};
ghost use Rattle.bundle_syntax.specs.Item.{head_of};
ghost use Rattle.bundle_rules.specs.Scopes as scopes;
ghost use Rattle.bundle_rules.specs.Scopes.{exports_default};
ghost use Rattle.bundle_rules.specs.Declarations as declarations;
ghost use Rattle.bundle_rules.specs.Homes as homes;
ghost use Rattle.bundle_scope_denote.specs.Bound as bound;
ghost use Rattle.bundle_scope_denote.specs.Kinds as kinds;
ghost use Rattle.bundle_scope_denote.specs.Kinds.{is_var_by, joins_by, kind_made, kind_named, scope_as, takes_by};

use crate::table::{ScopeKind, Way};
use bundle_syntax::{Node, VarDeclKind};

/// Whether a name that stands in such a node is declared by what stands around it: the nodes of patterns.
pub(crate) fn is_pattern(node: &Node) -> bool
    ensures { result ≡ declarations.is_pattern (head_of node.now) }
{
    match node {
        Node::BindingIdent
        | Node::ArrayPat
        | Node::ObjectPat
        | Node::RestPat
        | Node::AssignPat
        | Node::KeyValuePatProp
        | Node::AssignPatProp => true,
        _ => false,
    }
}

/// Whether such a node makes no scope and says nothing of what stands in it, but for the nodes of patterns how it is
/// declared by what stands around.
pub(crate) fn is_quiet(node: &Node) -> bool
    ensures { result ≡ kinds.is_quiet (head_of node.now) }
{
    match node {
        Node::ImportNamedSpecifier | Node::ImportDefaultSpecifier | Node::ImportStarAsSpecifier =>
            false,
        Node::ExportDefaultDecl | Node::ExportDefaultExpr => false,
        Node::BlockStmt | Node::SwitchStmt | Node::CatchClause => false,
        Node::ForStmt | Node::ForInStmt | Node::ForOfStmt { .. } => false,
        Node::ClassDecl | Node::FnDecl | Node::VarDecl { .. } | Node::VarDeclarator => false,
        Node::FnExpr | Node::ArrowExpr { .. } | Node::ClassExpr => false,
        Node::GetterProp | Node::SetterProp | Node::Function { .. } | Node::Param => false,
        Node::Constructor | Node::StaticBlock => false,
        _ => true,
    }
}

/// The field of such a node that is the head of a loop.
pub(crate) fn loop_head(node: &Node) -> Option<u8>
    ensures { (field : ℕ) →
        kinds.is_in_field result field ≡ declarations.is_loop_head (head_of node.now) field }
{
    match node {
        Node::ForStmt | Node::ForInStmt => Some(0),
        Node::ForOfStmt { .. } => Some(1),
        _ => None,
    }
}

/// Whether a field is this one.
pub(crate) fn is_field(own: Option<u8>, field: u8) -> bool
    ensures { result ≡ kinds.is_in_field own field }
{
    match own {
        None => false,
        Some(own) => field == own,
    }
}

/// Whether such a node is a default declaration.
pub(crate) fn is_default(node: &Node) -> bool
    ensures { result ≡ exports_default (head_of node.now) }
{
    match node {
        Node::ExportDefaultDecl => true,
        _ => false,
    }
}

/// How `var`, `let` and `const` declare, in the head of a loop or elsewhere.
pub(crate) fn way_of_kind(kind: VarDeclKind, heads_loop: bool) -> Way
    ensures { result ≡ kinds.kind_way kind heads_loop }
{
    match kind {
        VarDeclKind::Var => Way::Var,
        VarDeclKind::Let if heads_loop => Way::Loop,
        VarDeclKind::Const if heads_loop => Way::Loop,
        VarDeclKind::Let => Way::Let,
        VarDeclKind::Const => Way::Const,
    }
}

/// How a node declares the names of the declarators in it.
pub(crate) fn way_of_variable(node: &Node, heads_loop: bool) -> Option<Way>
    ensures { result ≡ kinds.variable_way (head_of node.now) heads_loop }
{
    match node {
        Node::VarDecl { kind, .. } => Some(way_of_kind(*kind, heads_loop)),
        _ => None,
    }
}

/// How a node that is no pattern declares a name that stands in it; `variable` is how a declarator there
/// declares, and `is_default` says whether the node is a default declaration.
pub(crate) fn way_in(node: &Node, variable: Option<Way>, is_default: bool) -> Option<Way>
    ensures { result ≡ kinds.head_way_in (head_of node.now) variable is_default }
{
    match node {
        Node::ImportNamedSpecifier | Node::ImportDefaultSpecifier | Node::ImportStarAsSpecifier =>
            Some(Way::Import),
        Node::VarDeclarator => variable,
        Node::FnDecl => Some(Way::Function),
        Node::ClassDecl => Some(Way::Class),
        Node::FnExpr if is_default => Some(Way::Function),
        Node::FnExpr => Some(Way::FunctionName),
        Node::ClassExpr if is_default => Some(Way::Class),
        Node::ClassExpr => Some(Way::ClassName),
        Node::Param => Some(Way::Parameter),
        Node::ArrowExpr { .. } => Some(Way::Parameter),
        Node::SetterProp => Some(Way::Parameter),
        Node::CatchClause => Some(Way::Catch),
        _ => None,
    }
}

/// Which scope a block makes that stands right inside such a node.
pub(crate) fn block_in(node: &Node) -> ScopeKind
    ensures { result ≡ kind_named (scopes.block_in (head_of node.now)) }
{
    match node {
        Node::StaticBlock => ScopeKind::StaticBody,
        Node::CatchClause => ScopeKind::CatchBlock,
        Node::Function { .. }
        | Node::ArrowExpr { .. }
        | Node::Constructor
        | Node::GetterProp
        | Node::SetterProp => ScopeKind::FunctionBody,
        _ => ScopeKind::Block,
    }
}

/// Which scope a node makes: as a block it is of the kind `block`, and a default declaration makes none for
/// its own name.
pub(crate) fn kind_of_scope(node: &Node, block: ScopeKind, is_default: bool) -> Option<ScopeKind>
    ensures { result ≡ kind_made (head_of node.now) block is_default }
{
    match node {
        Node::Function { .. } | Node::Constructor | Node::GetterProp | Node::SetterProp => {
            Some(ScopeKind::Parameters)
        }
        Node::ArrowExpr { .. } => Some(ScopeKind::ArrowParameters),
        Node::BlockStmt => Some(block),
        Node::SwitchStmt => Some(ScopeKind::Block),
        Node::ForStmt | Node::ForInStmt | Node::ForOfStmt { .. } => Some(ScopeKind::Loop),
        Node::CatchClause => Some(ScopeKind::Catch),
        Node::FnExpr if !is_default => Some(ScopeKind::FunctionName),
        Node::ClassExpr if !is_default => Some(ScopeKind::ClassName),
        _ => None,
    }
}

/// Whether the scope of such a node leaves its first field out: the key of an accessor, the discriminant of a
/// switch.
pub(crate) fn leaves_first_out(node: &Node) -> bool
    ensures { result ≡ kinds.leaves_first_out (head_of node.now) }
{
    match node {
        Node::GetterProp | Node::SetterProp | Node::SwitchStmt => true,
        _ => false,
    }
}

/// Whether a name that is declared in this way belongs to a scope of this kind, if it is the nearest such one.
pub(crate) fn takes(way: Way, kind: ScopeKind) -> bool
    ensures { (begins : ℕ) → result ≡ takes_by way (scope_as kind begins) }
{
    match way {
        Way::Import | Way::Default => is_top(kind),
        Way::Var => is_body(kind),
        Way::Let | Way::Const | Way::Function | Way::Class => is_block(kind),
        Way::Parameter => is_parameters(kind),
        Way::Catch => is_catch(kind),
        Way::Loop => is_loop(kind),
        Way::FunctionName => is_function_name(kind),
        Way::ClassName => is_class_name(kind),
        Way::Wrapper => is_wrapper(kind),
    }
}

/// Whether a name that is declared in this way is the parameter of that name, where the body's function has one.
pub(crate) fn joins_parameter(way: Way) -> bool
    ensures { result ≡ joins_by way }
{
    match way {
        Way::Var | Way::Function => true,
        _ => false,
    }
}

/// Whether a name is declared by `var`.
pub(crate) fn is_var(way: Way) -> bool
    ensures { result ≡ is_var_by way }
{
    match way {
        Way::Var => true,
        _ => false,
    }
}

// Whether a scope is the top of a module.
fn is_top(kind: ScopeKind) -> bool
    ensures { (begins : ℕ) → result ≡ homes.is_top (scope_as kind begins) }
{
    match kind {
        ScopeKind::Top => true,
        _ => false,
    }
}

// Whether a scope is that of a catch parameter.
fn is_catch(kind: ScopeKind) -> bool
    ensures { (begins : ℕ) → result ≡ homes.is_catch (scope_as kind begins) }
{
    match kind {
        ScopeKind::Catch => true,
        _ => false,
    }
}

// Whether a scope is that of a loop.
fn is_loop(kind: ScopeKind) -> bool
    ensures { (begins : ℕ) → result ≡ homes.is_loop (scope_as kind begins) }
{
    match kind {
        ScopeKind::Loop => true,
        _ => false,
    }
}

// Whether a scope is that of the own name of a function expression.
fn is_function_name(kind: ScopeKind) -> bool
    ensures { (begins : ℕ) → result ≡ homes.is_function_name (scope_as kind begins) }
{
    match kind {
        ScopeKind::FunctionName => true,
        _ => false,
    }
}

// Whether a scope is that of the own name of a class expression.
fn is_class_name(kind: ScopeKind) -> bool
    ensures { (begins : ℕ) → result ≡ homes.is_class_name (scope_as kind begins) }
{
    match kind {
        ScopeKind::ClassName => true,
        _ => false,
    }
}

/// Whether a scope is that of the parameters of a CommonJS module.
pub(crate) fn is_wrapper(kind: ScopeKind) -> bool
    ensures { (begins : ℕ) → result ≡ homes.is_wrapper (scope_as kind begins) }
{
    match kind {
        ScopeKind::Wrapper => true,
        _ => false,
    }
}

/// Whether a scope is the top of a module or the body of a function or a static block.
pub(crate) fn is_body(kind: ScopeKind) -> bool
    ensures { (begins : ℕ) → result ≡ homes.is_body (scope_as kind begins) }
{
    match kind {
        ScopeKind::Top | ScopeKind::FunctionBody | ScopeKind::StaticBody => true,
        _ => false,
    }
}

/// Whether a scope is one of these or a block.
pub(crate) fn is_block(kind: ScopeKind) -> bool
    ensures { (begins : ℕ) → result ≡ homes.is_block (scope_as kind begins) }
{
    match kind {
        ScopeKind::Block | ScopeKind::CatchBlock => true,
        ScopeKind::Top | ScopeKind::FunctionBody | ScopeKind::StaticBody => true,
        _ => false,
    }
}

/// Whether a scope is that of the parameters of a function or an arrow.
pub(crate) fn is_parameters(kind: ScopeKind) -> bool
    ensures { (begins : ℕ) → result ≡ homes.is_parameters (scope_as kind begins) }
{
    match kind {
        ScopeKind::Parameters | ScopeKind::ArrowParameters => true,
        _ => false,
    }
}

/// Whether a scope is that of the parameters of a function, an arrow or a CommonJS module.
pub(crate) fn holds_parameters(kind: ScopeKind) -> bool
    ensures { (begins : ℕ) → result ≡ bound.holds_parameters (scope_as kind begins) }
{
    match kind {
        ScopeKind::Parameters | ScopeKind::ArrowParameters | ScopeKind::Wrapper => true,
        _ => false,
    }
}

/// Whether a scope binds `arguments` where no declaration does.
pub(crate) fn is_function(kind: ScopeKind) -> bool
    ensures { (begins : ℕ) → result ≡ homes.is_function (scope_as kind begins) }
{
    match kind {
        ScopeKind::Wrapper | ScopeKind::Parameters => true,
        _ => false,
    }
}

/// Whether a scope is a body that has parameters beside it.
pub(crate) fn has_parameters(kind: ScopeKind) -> bool
    ensures { (begins : ℕ) → result ≡ bound.has_parameters (scope_as kind begins) }
{
    match kind {
        ScopeKind::Top | ScopeKind::FunctionBody => true,
        _ => false,
    }
}

/// Whether a scope of this kind keeps its names apart with the scope around it.
pub(crate) fn joins_outer(kind: ScopeKind) -> bool
    ensures { (begins : ℕ) → result ≡ bound.joins_outer (scope_as kind begins) }
{
    match kind {
        ScopeKind::CatchBlock => true,
        _ => has_parameters(kind),
    }
}

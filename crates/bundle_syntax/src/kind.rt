//! The kinds of nodes that have several, and what a linker notes on a declaration.

use bundle_tree_names::SyntaxContext;

/// The word that a declaration of variables begins with (ECMA-262, 14.3).
#[derive(Clone, Copy, PartialEq, Eq, Hash, Debug)]
pub enum VarDeclKind {
    Var,
    Let,
    Const,
}

/// What a method of a class is (ECMA-262, 15.4).
#[derive(Clone, Copy, PartialEq, Eq, Hash, Debug)]
pub enum MethodKind {
    Method,
    Getter,
    Setter,
}

/// `new.target` or `import.meta` (ECMA-262, 13.3.12).
#[derive(Clone, Copy, PartialEq, Eq, Hash, Debug)]
pub enum MetaPropKind {
    NewTarget,
    ImportMeta,
}

/// What the linker notes on a declaration while it works. A tree that is handed in or out has the
/// default: not injected, no context.
#[derive(Clone, Copy, PartialEq, Eq, Debug, Default)]
pub struct ExportMetadata {
    pub injected: bool,
    pub export_ctxt: Option<SyntaxContext>,
}

impl VarDeclKind {
    ghost use Rattle.std.specs.Prelude.{◌≡◌, ◌≢◌, Some, IfSome, IfNone};
    ghost use Rattle.bundle_syntax.specs.Text.{declaration_word};

    /// Its JavaScript text.
    pub fn as_str(self) -> &'static str
        ensures { result.now ≡ declaration_word self }
    {
        match self {
            VarDeclKind::Var => "var",
            VarDeclKind::Let => "let",
            VarDeclKind::Const => "const",
        }
    }

    /// The one with this JavaScript text, or `None` where there is none.
    pub fn from_text(text: &str) -> Option<VarDeclKind>
        ensures found { IfSome result (λ it. declaration_word it ≡ text.now) }
        ensures none { IfNone result ((it : VarDeclKind) → declaration_word it ≢ text.now) }
    {
        match text {
            "var" => Some(VarDeclKind::Var),
            "let" => Some(VarDeclKind::Let),
            "const" => Some(VarDeclKind::Const),
            _ => None,
        }
    }
}

impl MethodKind {
    ghost use Rattle.std.specs.Prelude.{◌≡◌, ◌≢◌, Some, IfSome, IfNone};
    ghost use Rattle.bundle_syntax.specs.Text.{method_word};

    /// Its JavaScript text.
    pub fn as_str(self) -> &'static str
        ensures { result.now ≡ method_word self }
    {
        match self {
            MethodKind::Method => "method",
            MethodKind::Getter => "getter",
            MethodKind::Setter => "setter",
        }
    }

    /// The one with this JavaScript text, or `None` where there is none.
    pub fn from_text(text: &str) -> Option<MethodKind>
        ensures found { IfSome result (λ it. method_word it ≡ text.now) }
        ensures none { IfNone result ((it : MethodKind) → method_word it ≢ text.now) }
    {
        match text {
            "method" => Some(MethodKind::Method),
            "getter" => Some(MethodKind::Getter),
            "setter" => Some(MethodKind::Setter),
            _ => None,
        }
    }
}

impl MetaPropKind {
    ghost use Rattle.std.specs.Prelude.{◌≡◌, ◌≢◌, Some, IfSome, IfNone};
    ghost use Rattle.bundle_syntax.specs.Text.{meta_prop_text};

    /// Its JavaScript text.
    pub fn as_str(self) -> &'static str
        ensures { result.now ≡ meta_prop_text self }
    {
        match self {
            MetaPropKind::NewTarget => "new.target",
            MetaPropKind::ImportMeta => "import.meta",
        }
    }

    /// The one with this JavaScript text, or `None` where there is none.
    pub fn from_text(text: &str) -> Option<MetaPropKind>
        ensures found { IfSome result (λ it. meta_prop_text it ≡ text.now) }
        ensures none { IfNone result ((it : MetaPropKind) → meta_prop_text it ≢ text.now) }
    {
        match text {
            "new.target" => Some(MetaPropKind::NewTarget),
            "import.meta" => Some(MetaPropKind::ImportMeta),
            _ => None,
        }
    }
}

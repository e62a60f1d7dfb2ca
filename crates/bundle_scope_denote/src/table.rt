//! The table of what each occurrence denotes.

use crate::salt::Salt;

/// What a list is read as: the code of an ECMAScript module, or that of
/// `function (module, exports) { .. }`.
#[derive(Clone, Copy, PartialEq, Eq, Debug)]
pub enum ModuleKind {
    Es,
    Cjs,
}

/// How names are read: by the symbol alone, or by symbol and context.
#[derive(Clone, Copy)]
pub enum Reading {
    BySymbol,
    ByContext,
}

/// What makes a scope.
#[derive(Clone, Copy, PartialEq, Eq)]
pub enum ScopeKind {
    /// The parameters `module` and `exports` of a CommonJS module.
    Wrapper,
    /// The top of a module.
    Top,
    /// The parameters of a function, method, accessor or constructor.
    Parameters,
    /// The parameters of an arrow.
    ArrowParameters,
    /// The body of any of these.
    FunctionBody,
    /// The body of a static block.
    StaticBody,
    /// Any other block, or the cases of a switch.
    Block,
    /// The block of a catch.
    CatchBlock,
    /// A loop with its head.
    Loop,
    /// A catch with its parameter.
    Catch,
    /// A function expression, for its own name.
    FunctionName,
    /// A class expression, for its own name.
    ClassName,
}

/// A scope. They are numbered in the order of their nodes' beginnings, an outer one before those inside.
/// Of an ECMAScript module, 0 is the top; of a CommonJS module, 0 is the wrapper and 1 the top.
#[derive(Clone, Copy)]
pub struct Scope {
    pub kind: ScopeKind,
    /// The number of the scope around it.
    pub outer: Option<usize>,
    /// The place where its node begins; 0 for those outside all nodes.
    pub begins: usize,
}

/// How a name is declared.
#[derive(Clone, Copy, PartialEq, Eq)]
pub(crate) enum Way {
    Import,
    Var,
    Let,
    Const,
    Function,
    Class,
    /// By a default export without a name, which declares `default`.
    Default,
    Parameter,
    /// As the parameter of a catch.
    Catch,
    /// By the `let` or `const` of a loop's head.
    Loop,
    /// As the own name of a function expression.
    FunctionName,
    /// As the own name of a class expression.
    ClassName,
    /// As a parameter of a CommonJS module.
    Wrapper,
}

/// A binding: one for each scope and name, where by context the name is symbol and context.
#[derive(Clone, Copy)]
pub struct Binding<'a> {
    /// The number of the scope that binds it.
    pub scope: usize,
    pub sym: &'a str,
    /// None by symbol, and where no identifier declares it: for a parameter of a CommonJS module, for the
    /// `default` of a nameless export, and for the implicit `arguments`.
    pub ctxt: Option<u32>,
}

/// An identifier that binds a name or refers to one.
#[derive(Clone, Copy)]
pub struct Denoted {
    pub place: usize,
    /// The number of the innermost scope around it.
    pub scope: usize,
    /// The number of the binding that it denotes, or None for a global.
    pub binding: Option<usize>,
    /// Whether it declares that binding.
    pub declares: bool,
}

/// What each occurrence of a list denotes. Every declared name is a binding, also one that nothing refers to;
/// an implicit `arguments` is one where some occurrence denotes it.
#[derive(Drop)]
pub struct Denotations<'a> {
    pub scopes: Vec<Scope>,
    pub bindings: Vec<Binding<'a>>,
    /// In the order of the list.
    pub occurrences: Vec<Denoted>,
    /// What tables whose keys hold symbols of the list are made with.
    pub salt: Salt,
}

/// A declaration of a name that may not be declared there again.
#[derive(Clone, Copy, PartialEq, Eq, Debug)]
pub struct Doubled<'a> {
    pub place: usize,
    pub name: &'a str,
}

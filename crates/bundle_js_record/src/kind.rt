//! What a record is of.

/// The kind of a record: a node of the tree under its name, or what covers several until it is known which.
///
/// The comment of a kind names its children with their fields' numbers, `[]` at a list and `?` at what may be
/// left out, and what `op` holds where it is not 0. A kind that has neither is a leaf. Operators and kinds of
/// declarations are held as their numbers in the enums of `bundle_syntax`.
#[derive(Clone, Copy, PartialEq, Eq, Debug)]
pub enum Kind {
    /// No node: the word that a name or a keyword has turned out to be, or what stands around an argument that
    /// has turned out to be a pattern. What lies in it lies in the node around it.
    Gone,
    /// A place of an array that has no element.
    Hole,

    // Modules (ECMA-262, 16.2).
    /// 0: body[].
    Module,
    /// 0: specifiers[], 1: src.
    ImportDecl,
    /// 0: local, 1: imported?.
    ImportNamedSpecifier,
    /// 0: local.
    ImportDefaultSpecifier,
    /// 0: local.
    ImportStarAsSpecifier,
    /// 0: decl.
    ExportDecl,
    /// 0: specifiers[], 1: src?.
    NamedExport,
    /// 0: name.
    ExportNamespaceSpecifier,
    /// 0: orig, 1: exported?.
    ExportNamedSpecifier,
    /// 0: decl.
    ExportDefaultDecl,
    /// 0: expr.
    ExportDefaultExpr,
    /// 0: src.
    ExportAll,

    // Statements (ECMA-262, 14).
    /// 0: stmts[].
    BlockStmt,
    EmptyStmt,
    DebuggerStmt,
    /// 0: obj, 1: body. Strict code has none, but the linker tells so.
    WithStmt,
    /// 0: arg?.
    ReturnStmt,
    /// 0: label (`IdentName`), 1: body.
    LabeledStmt,
    /// 0: label? (`IdentName`).
    BreakStmt,
    /// 0: label? (`IdentName`).
    ContinueStmt,
    /// 0: test, 1: cons, 2: alt?.
    IfStmt,
    /// 0: discriminant, 1: cases[].
    SwitchStmt,
    /// 0: test?, 1: cons[].
    SwitchCase,
    /// 0: arg.
    ThrowStmt,
    /// 0: block, 1: handler?, 2: finalizer?.
    TryStmt,
    /// 0: param?, 1: body.
    CatchClause,
    /// 0: test, 1: body.
    WhileStmt,
    /// 0: body, 1: test.
    DoWhileStmt,
    /// 0: init?, 1: test?, 2: update?, 3: body.
    ForStmt,
    /// 0: left, 1: right, 2: body.
    ForInStmt,
    /// 1: left, 2: right, 3: body. `op`: 1 with `await`.
    ForOfStmt,
    /// 0: expr.
    ExprStmt,

    // Declarations (ECMA-262, 14.3, 15.2 and 15.7).
    /// 0: ident, 1: class.
    ClassDecl,
    /// 0: ident, 1: function.
    FnDecl,
    /// 1: decls[]. `op`: of `VarDeclKind`.
    VarDecl,
    /// 0: name, 1: init?. `op`: 1 with an initializer.
    VarDeclarator,

    // Expressions (ECMA-262, 13).
    ThisExpr,
    /// 0: elems[] (`ExprOrSpread` or `Hole`).
    ArrayLit,
    /// 0: props[].
    ObjectLit,
    /// 0: ident?, 1: function.
    FnExpr,
    /// 1: arg. `op`: of `UnaryOp`.
    UnaryExpr,
    /// 2: arg. `op`: of `UpdateOp`, and 2 more before its operand.
    UpdateExpr,
    /// 1: left, 2: right. `op`: of `BinaryOp`.
    BinExpr,
    /// 1: left, 2: right. `op`: of `AssignOp`.
    AssignExpr,
    /// 0: obj, 1: prop (`IdentName`, `PrivateName` or `ComputedPropName`).
    MemberExpr,
    /// 0: prop (`IdentName` or `ComputedPropName`).
    SuperPropExpr,
    /// 0: test, 1: cons, 2: alt.
    CondExpr,
    /// 0: callee, 1: args[] (`ExprOrSpread`).
    CallExpr,
    /// 0: callee, 1: args[] (`ExprOrSpread`). `op`: 1 where there are arguments, be they none.
    NewExpr,
    /// 0: exprs[].
    SeqExpr,
    /// 0: exprs[], 1: quasis[] (`TplElement`), which stand behind all expressions.
    Tpl,
    TplElement,
    /// 0: tag, 1: tpl.
    TaggedTpl,
    /// 0: params[] (patterns), 1: body (a `BlockStmt` or an expression). `op`: 1 where it is `async`.
    ArrowExpr,
    /// 0: ident?, 1: class.
    ClassExpr,
    /// 0: arg?. `op`: 1 with a star.
    YieldExpr,
    /// A leaf. `op`: of `MetaPropKind`.
    MetaPropExpr,
    /// 0: arg.
    AwaitExpr,
    /// 0: expr. `op`: 1 where it may be assigned to.
    ParenExpr,
    /// 1: base (`MemberExpr` or `OptCall`). `op`: 1 with `?.`.
    OptChainExpr,
    /// 0: callee, 1: args[] (`ExprOrSpread`).
    OptCall,
    /// 1: expr. `op`: 1 with `...`, 2 with `...` and a comma behind it.
    ExprOrSpread,
    /// The `super` of a call.
    Super,
    /// The `import` of a call.
    Import,

    // Names and literals (ECMA-262, 12.7 and 13.2.3).
    /// A leaf. `op`: 1 for `eval` and `arguments`, which strict code may not bind; 2 in an export for what can only
    /// be a name of another module.
    Ident,
    IdentName,
    /// A leaf, whose place has the `#`.
    PrivateName,
    /// A leaf, whose place has the quotes. `op`: 1 where it is a key, 2 where it is exported.
    Str,
    /// A leaf. `op`: 1 for `true`.
    Bool,
    Null,
    /// A leaf. `op`: 1 where it is a key.
    Number,
    /// A leaf. `op`: 1 where it is a key.
    BigInt,
    Regex,

    // Properties of object literals (ECMA-262, 13.2.5).
    /// A name that is a property and its value, in the tree an identifier: a leaf.
    Shorthand,
    /// 0: key (`Ident`), 1: value. `a = 1` in an object, which only a pattern may hold: none is left in a list that is
    /// handed out.
    Cover,
    /// 0: expr. `op`: 1, or 2 with a comma behind it.
    SpreadElement,
    /// 0: key, 1: value.
    KeyValueProp,
    /// 0: key, 1: body.
    GetterProp,
    /// 0: key, 1: param (a pattern), 2: body.
    SetterProp,
    /// 0: key, 1: function.
    MethodProp,
    /// 0: expr.
    ComputedPropName,

    // Patterns (ECMA-262, 14.3.3).
    /// A leaf: in the tree a node around the identifier.
    BindingIdent,
    /// 0: elems[] (patterns or `Hole`).
    ArrayPat,
    /// 0: props[] (`KeyValuePatProp`, `AssignPatProp`, `ShorthandPat` or `RestPat`).
    ObjectPat,
    /// 0: arg.
    RestPat,
    /// 0: left, 1: right.
    AssignPat,
    /// 0: key, 1: value.
    KeyValuePatProp,
    /// 0: key (`BindingIdent`), 1: value.
    AssignPatProp,
    /// A leaf: in the tree an `AssignPatProp` around a `BindingIdent` around the identifier.
    ShorthandPat,

    // Functions and classes (ECMA-262, 15).
    /// 0: params[], 1: body. `op`: 1 for a generator, 2 more where it is `async`.
    Function,
    /// 0: pat.
    Param,
    /// 0: super_class?, 1: body[].
    Class,
    /// 0: params[], 1: body.
    Constructor,
    /// 0: key, 1: function. `op`: of `MethodKind`, and 4 more where it is `static`.
    ClassMethod,
    /// 0: key (`PrivateName`), 1: function. `op`: as at `ClassMethod`.
    PrivateMethod,
    /// 0: key, 1: value?. `op`: 4 where it is `static`.
    ClassProp,
    /// 0: key (`PrivateName`), 1: value?. `op`: as at `ClassProp`.
    PrivateProp,
    /// 0: body (a `BlockStmt`).
    StaticBlock,
}

/// Whether a record of this kind has no room for others.
pub fn is_leaf(kind: Kind) -> bool {
    matches!(
        kind,
        Kind::Hole
            | Kind::EmptyStmt
            | Kind::DebuggerStmt
            | Kind::ThisExpr
            | Kind::TplElement
            | Kind::MetaPropExpr
            | Kind::Super
            | Kind::Import
            | Kind::Ident
            | Kind::IdentName
            | Kind::PrivateName
            | Kind::Str
            | Kind::Bool
            | Kind::Null
            | Kind::Number
            | Kind::BigInt
            | Kind::Regex
            | Kind::Shorthand
            | Kind::BindingIdent
            | Kind::ShorthandPat
    )
}

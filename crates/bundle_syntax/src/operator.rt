//! The operators, and the texts that they are written as.

/// An operator before its operand (ECMA-262, 13.5).
#[derive(Clone, Copy, PartialEq, Eq, Hash, Debug)]
pub enum UnaryOp {
    Minus,
    Plus,
    Bang,
    Tilde,
    TypeOf,
    Void,
    Delete,
}

impl UnaryOp {
    ghost use Rattle.std.specs.Prelude.{◌≡◌, ◌≢◌, Some, IfSome, IfNone};
    ghost use Rattle.bundle_syntax.specs.Text.{unary_text};

    /// Its JavaScript text.
    pub fn as_str(self) -> &'static str
        ensures { result.now ≡ unary_text self }
    {
        match self {
            UnaryOp::Minus => "-",
            UnaryOp::Plus => "+",
            UnaryOp::Bang => "!",
            UnaryOp::Tilde => "~",
            UnaryOp::TypeOf => "typeof",
            UnaryOp::Void => "void",
            UnaryOp::Delete => "delete",
        }
    }

    /// The one with this JavaScript text, or `None` where there is none.
    pub fn from_text(text: &str) -> Option<UnaryOp>
        ensures found { IfSome result (λ it. unary_text it ≡ text.now) }
        ensures none { IfNone result ((it : UnaryOp) → unary_text it ≢ text.now) }
    {
        match text {
            "-" => Some(UnaryOp::Minus),
            "+" => Some(UnaryOp::Plus),
            "!" => Some(UnaryOp::Bang),
            "~" => Some(UnaryOp::Tilde),
            "typeof" => Some(UnaryOp::TypeOf),
            "void" => Some(UnaryOp::Void),
            "delete" => Some(UnaryOp::Delete),
            _ => None,
        }
    }
}

/// `++` or `--` (ECMA-262, 13.4).
#[derive(Clone, Copy, PartialEq, Eq, Hash, Debug)]
pub enum UpdateOp {
    PlusPlus,
    MinusMinus,
}

impl UpdateOp {
    ghost use Rattle.std.specs.Prelude.{◌≡◌, ◌≢◌, Some, IfSome, IfNone};
    ghost use Rattle.bundle_syntax.specs.Text.{update_text};

    /// Its JavaScript text.
    pub fn as_str(self) -> &'static str
        ensures { result.now ≡ update_text self }
    {
        match self {
            UpdateOp::PlusPlus => "++",
            UpdateOp::MinusMinus => "--",
        }
    }

    /// The one with this JavaScript text, or `None` where there is none.
    pub fn from_text(text: &str) -> Option<UpdateOp>
        ensures found { IfSome result (λ it. update_text it ≡ text.now) }
        ensures none { IfNone result ((it : UpdateOp) → update_text it ≢ text.now) }
    {
        match text {
            "++" => Some(UpdateOp::PlusPlus),
            "--" => Some(UpdateOp::MinusMinus),
            _ => None,
        }
    }
}

/// An operator between two operands (ECMA-262, 13.6 to 13.13).
#[derive(Clone, Copy, PartialEq, Eq, Hash, Debug)]
pub enum BinaryOp {
    EqEq,
    NotEq,
    EqEqEq,
    NotEqEq,
    Lt,
    LtEq,
    Gt,
    GtEq,
    LShift,
    RShift,
    ZeroFillRShift,
    Add,
    Sub,
    Mul,
    Div,
    Mod,
    BitOr,
    BitXor,
    BitAnd,
    LogicalOr,
    LogicalAnd,
    In,
    InstanceOf,
    Exp,
    NullishCoalescing,
}

impl BinaryOp {
    ghost use Rattle.std.specs.Prelude.{◌≡◌, ◌≢◌, Some, IfSome, IfNone};
    ghost use Rattle.bundle_syntax.specs.Text.{binary_text};

    /// Its JavaScript text.
    pub fn as_str(self) -> &'static str
        ensures { result.now ≡ binary_text self }
    {
        match self {
            BinaryOp::EqEq => "==",
            BinaryOp::NotEq => "!=",
            BinaryOp::EqEqEq => "===",
            BinaryOp::NotEqEq => "!==",
            BinaryOp::Lt => "<",
            BinaryOp::LtEq => "<=",
            BinaryOp::Gt => ">",
            BinaryOp::GtEq => ">=",
            BinaryOp::LShift => "<<",
            BinaryOp::RShift => ">>",
            BinaryOp::ZeroFillRShift => ">>>",
            BinaryOp::Add => "+",
            BinaryOp::Sub => "-",
            BinaryOp::Mul => "*",
            BinaryOp::Div => "/",
            BinaryOp::Mod => "%",
            BinaryOp::BitOr => "|",
            BinaryOp::BitXor => "^",
            BinaryOp::BitAnd => "&",
            BinaryOp::LogicalOr => "||",
            BinaryOp::LogicalAnd => "&&",
            BinaryOp::In => "in",
            BinaryOp::InstanceOf => "instanceof",
            BinaryOp::Exp => "**",
            BinaryOp::NullishCoalescing => "??",
        }
    }

    /// The one with this JavaScript text, or `None` where there is none.
    pub fn from_text(text: &str) -> Option<BinaryOp>
        ensures found { IfSome result (λ it. binary_text it ≡ text.now) }
        ensures none { IfNone result ((it : BinaryOp) → binary_text it ≢ text.now) }
    {
        match text {
            "==" => Some(BinaryOp::EqEq),
            "!=" => Some(BinaryOp::NotEq),
            "===" => Some(BinaryOp::EqEqEq),
            "!==" => Some(BinaryOp::NotEqEq),
            "<" => Some(BinaryOp::Lt),
            "<=" => Some(BinaryOp::LtEq),
            ">" => Some(BinaryOp::Gt),
            ">=" => Some(BinaryOp::GtEq),
            "<<" => Some(BinaryOp::LShift),
            ">>" => Some(BinaryOp::RShift),
            ">>>" => Some(BinaryOp::ZeroFillRShift),
            "+" => Some(BinaryOp::Add),
            "-" => Some(BinaryOp::Sub),
            "*" => Some(BinaryOp::Mul),
            "/" => Some(BinaryOp::Div),
            "%" => Some(BinaryOp::Mod),
            "|" => Some(BinaryOp::BitOr),
            "^" => Some(BinaryOp::BitXor),
            "&" => Some(BinaryOp::BitAnd),
            "||" => Some(BinaryOp::LogicalOr),
            "&&" => Some(BinaryOp::LogicalAnd),
            "in" => Some(BinaryOp::In),
            "instanceof" => Some(BinaryOp::InstanceOf),
            "**" => Some(BinaryOp::Exp),
            "??" => Some(BinaryOp::NullishCoalescing),
            _ => None,
        }
    }
}

/// An operator of an assignment (ECMA-262, 13.15).
#[derive(Clone, Copy, PartialEq, Eq, Hash, Debug)]
pub enum AssignOp {
    Assign,
    AddAssign,
    SubAssign,
    MulAssign,
    DivAssign,
    ModAssign,
    LShiftAssign,
    RShiftAssign,
    ZeroFillRShiftAssign,
    BitOrAssign,
    BitXorAssign,
    BitAndAssign,
    ExpAssign,
    AndAssign,
    OrAssign,
    NullishAssign,
}

impl AssignOp {
    ghost use Rattle.std.specs.Prelude.{◌≡◌, ◌≢◌, Some, IfSome, IfNone};
    ghost use Rattle.bundle_syntax.specs.Text.{assign_text};

    /// Its JavaScript text.
    pub fn as_str(self) -> &'static str
        ensures { result.now ≡ assign_text self }
    {
        match self {
            AssignOp::Assign => "=",
            AssignOp::AddAssign => "+=",
            AssignOp::SubAssign => "-=",
            AssignOp::MulAssign => "*=",
            AssignOp::DivAssign => "/=",
            AssignOp::ModAssign => "%=",
            AssignOp::LShiftAssign => "<<=",
            AssignOp::RShiftAssign => ">>=",
            AssignOp::ZeroFillRShiftAssign => ">>>=",
            AssignOp::BitOrAssign => "|=",
            AssignOp::BitXorAssign => "^=",
            AssignOp::BitAndAssign => "&=",
            AssignOp::ExpAssign => "**=",
            AssignOp::AndAssign => "&&=",
            AssignOp::OrAssign => "||=",
            AssignOp::NullishAssign => "??=",
        }
    }

    /// The one with this JavaScript text, or `None` where there is none.
    pub fn from_text(text: &str) -> Option<AssignOp>
        ensures found { IfSome result (λ it. assign_text it ≡ text.now) }
        ensures none { IfNone result ((it : AssignOp) → assign_text it ≢ text.now) }
    {
        match text {
            "=" => Some(AssignOp::Assign),
            "+=" => Some(AssignOp::AddAssign),
            "-=" => Some(AssignOp::SubAssign),
            "*=" => Some(AssignOp::MulAssign),
            "/=" => Some(AssignOp::DivAssign),
            "%=" => Some(AssignOp::ModAssign),
            "<<=" => Some(AssignOp::LShiftAssign),
            ">>=" => Some(AssignOp::RShiftAssign),
            ">>>=" => Some(AssignOp::ZeroFillRShiftAssign),
            "|=" => Some(AssignOp::BitOrAssign),
            "^=" => Some(AssignOp::BitXorAssign),
            "&=" => Some(AssignOp::BitAndAssign),
            "**=" => Some(AssignOp::ExpAssign),
            "&&=" => Some(AssignOp::AndAssign),
            "||=" => Some(AssignOp::OrAssign),
            "??=" => Some(AssignOp::NullishAssign),
            _ => None,
        }
    }
}

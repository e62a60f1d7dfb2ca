//! The words of the language (ECMA-262, 12.7.2, and those that the grammar names).

use crate::byte::byte_at;
use crate::token::Tok;

/// What the name is: a word of the language, or an identifier.
pub fn word_kind(word: &[u8]) -> Tok {
    if word.len() < 2 || word.len() > 11 {
        return Tok::Ident;
    }
    match byte_at(word, 0) {
        b'a' => word_of_a(word),
        b'c' => word_of_c(word),
        b'd' => word_of_d(word),
        b'e' => word_of_e(word),
        b'f' => word_of_f(word),
        b'i' => word_of_i(word),
        b'n' => word_of_n(word),
        b'p' => word_of_p(word),
        b's' => word_of_s(word),
        b't' => word_of_t(word),
        b'v' => word_of_v(word),
        b'w' => word_of_w(word),
        _ => word_of_its_letter(word),
    }
}

// The words that begin with a letter of their own.
fn word_of_its_letter(word: &[u8]) -> Tok {
    match word {
        b"break" => Tok::Break,
        b"get" => Tok::Get,
        b"let" => Tok::Let,
        b"meta" => Tok::Meta,
        b"of" => Tok::Of,
        b"return" => Tok::Return,
        b"yield" => Tok::Yield,
        _ => Tok::Ident,
    }
}

fn word_of_a(word: &[u8]) -> Tok {
    match word {
        b"arguments" => Tok::Arguments,
        b"as" => Tok::As,
        b"async" => Tok::Async,
        b"await" => Tok::Await,
        _ => Tok::Ident,
    }
}

fn word_of_c(word: &[u8]) -> Tok {
    match word {
        b"case" => Tok::Case,
        b"catch" => Tok::Catch,
        b"class" => Tok::Class,
        b"const" => Tok::Const,
        b"constructor" => Tok::Constructor,
        b"continue" => Tok::Continue,
        _ => Tok::Ident,
    }
}

fn word_of_d(word: &[u8]) -> Tok {
    match word {
        b"debugger" => Tok::Debugger,
        b"default" => Tok::Default,
        b"delete" => Tok::Delete,
        b"do" => Tok::Do,
        _ => Tok::Ident,
    }
}

fn word_of_e(word: &[u8]) -> Tok {
    match word {
        b"else" => Tok::Else,
        b"enum" => Tok::Enum,
        b"eval" => Tok::Eval,
        b"export" => Tok::Export,
        b"extends" => Tok::Extends,
        _ => Tok::Ident,
    }
}

fn word_of_f(word: &[u8]) -> Tok {
    match word {
        b"false" => Tok::False,
        b"finally" => Tok::Finally,
        b"for" => Tok::For,
        b"from" => Tok::From,
        b"function" => Tok::Function,
        _ => Tok::Ident,
    }
}

fn word_of_i(word: &[u8]) -> Tok {
    match word {
        b"if" => Tok::If,
        b"implements" => Tok::Implements,
        b"import" => Tok::Import,
        b"in" => Tok::In,
        b"instanceof" => Tok::InstanceOf,
        b"interface" => Tok::Interface,
        _ => Tok::Ident,
    }
}

fn word_of_n(word: &[u8]) -> Tok {
    match word {
        b"new" => Tok::New,
        b"null" => Tok::Null,
        _ => Tok::Ident,
    }
}

fn word_of_p(word: &[u8]) -> Tok {
    match word {
        b"package" => Tok::Package,
        b"private" => Tok::Private,
        b"protected" => Tok::Protected,
        b"prototype" => Tok::Prototype,
        b"public" => Tok::Public,
        _ => Tok::Ident,
    }
}

fn word_of_s(word: &[u8]) -> Tok {
    match word {
        b"set" => Tok::Set,
        b"static" => Tok::Static,
        b"super" => Tok::Super,
        b"switch" => Tok::Switch,
        _ => Tok::Ident,
    }
}

fn word_of_t(word: &[u8]) -> Tok {
    match word {
        b"target" => Tok::Target,
        b"this" => Tok::This,
        b"throw" => Tok::Throw,
        b"true" => Tok::True,
        b"try" => Tok::Try,
        b"typeof" => Tok::TypeOf,
        _ => Tok::Ident,
    }
}

fn word_of_v(word: &[u8]) -> Tok {
    match word {
        b"var" => Tok::Var,
        b"void" => Tok::Void,
        _ => Tok::Ident,
    }
}

fn word_of_w(word: &[u8]) -> Tok {
    match word {
        b"while" => Tok::While,
        b"with" => Tok::With,
        _ => Tok::Ident,
    }
}

//! What a specifier asks for: a path, a package, one of Node's own modules, or an address elsewhere.
ghost use Rattle.std.specs.Prelude.{◌≡◌, ◌≢◌, [], ◌++◌, IfSome, map, nat_eq, take};
ghost use Rattle.std.specs.Char.{to_ascii_lowercase};
ghost use Rattle.std.specs.List.{after_first, before_first, list_all, starts_with};
ghost use Rattle.std.specs.Str.{bytes_eq};
ghost use Rattle.gutsirava_path.specs.Places.{is_slash};
ghost use Rattle.gutsirava_path.specs.Specifiers as sp;

/// Which of Node's two loaders a request is for: that of `import`, or that of `require`.
#[derive(Clone, Copy, PartialEq, Eq)]
pub enum Loader {
    EcmaScript,
    CommonJs,
}

/// What a specifier asks for.
#[derive(Clone, Copy)]
pub enum Specifier<'a> {
    /// `.`, `..`, or what begins with `./` or `../`.
    Relative(&'a str),
    /// What begins with `/`.
    Absolute(&'a str),
    /// The path of a `file:` address, which begins with `/`.
    File(&'a str),
    /// What begins with `#`: an entry of `imports` in package.json.
    Internal(&'a str),
    /// One of Node's own modules, without `node:`.
    Builtin(&'a str),
    /// What begins with `node:` and is none of Node's modules.
    UnknownBuiltin(&'a str),
    /// Any other address.
    Url(&'a str),
    /// A package, or a path in one.
    Bare(&'a str),
    /// A file of another machine: an address of a file with a host.
    Remote(&'a str),
    /// The empty text.
    Empty,
}

impl<'a> Specifier<'a> {
    ghost use Rattle.std.specs.Prelude.{◌≡◌};
    ghost use Rattle.gutsirava_path.specs.Specifiers.{meaning_in, meaning_of};

    /// What the text asks for. `require` knows no addresses but `node:`.
    pub fn of(text: &'a str, loader: Loader) -> Specifier<'a>
        ensures { meaning_in result ≡ meaning_of loader text.now }
    {
        if text.is_empty() {
            Specifier::Empty
        } else if is_module(loader) && begins_with(text, "//") {
            Specifier::Remote(text)
        } else if begins_with(text, "/") {
            Specifier::Absolute(text)
        } else if is_relative(text) {
            Specifier::Relative(text)
        } else if begins_with(text, "#") {
            Specifier::Internal(text)
        } else {
            named(text, loader)
        }
    }
}

/// Whether a loader is that of `import`.
fn is_module(loader: Loader) -> bool
    ensures { result ≡ sp.is_module loader }
{
    match loader {
        Loader::EcmaScript => true,
        Loader::CommonJs => false,
    }
}

/// Whether a text begins with another.
fn begins_with(text: &str, front: &str) -> bool
    ensures { result ≡ starts_with nat_eq text.now front.now }
{
    text.starts_with(front)
}

/// `.`, `..`, or what begins with `./` or `../`.
fn is_relative(text: &str) -> bool
    ensures { result ≡ sp.is_relative text.now }
{
    let first = first_part(text);
    first == "." || first == ".."
}

/// What stands before the first `/`, or all.
fn first_part(text: &str) -> &str
    ensures { result.now ≡ before_first is_slash text.now }
{
    match text.split_once('/') {
        Some((first, _)) => first,
        None => text,
    }
}

/// What the name of a module, or an address, asks for.
fn named(text: &str, loader: Loader) -> Specifier<'_>
    ensures { sp.meaning_in result ≡ sp.named_meaning loader text.now }
{
    if let Some(name) = text.strip_prefix("node:") {
        node_module(name)
    } else if is_builtin(text) {
        Specifier::Builtin(text)
    } else if is_module(loader) && has_scheme(text) {
        address(text)
    } else {
        Specifier::Bare(text)
    }
}

/// Whether an address begins the text: a letter, then letters, digits, `+`, `-` and `.`, then `:`.
fn has_scheme(text: &str) -> bool
    ensures { result ≡ sp.has_scheme text.now }
{
    match text.split_once(':') {
        Some((scheme, _)) => is_scheme(scheme.as_bytes()),
        None => false,
    }
}

/// Whether these bytes are a letter, then letters, digits, `+`, `-` and `.`.
fn is_scheme(bytes: &[u8]) -> bool
    ensures { result ≡ sp.is_scheme bytes.now }
{
    match bytes {
        [first, rest @ ..] => is_letter(*first) && are_plain(rest),
        [] => false,
    }
}

/// Whether these bytes are letters, digits, `+`, `-` and `.`.
fn are_plain(bytes: &[u8]) -> bool
    ensures { result ≡ list_all sp.is_scheme_byte bytes.now }
{
    bytes.iter().all(|byte| is_scheme_byte(*byte))
}

fn is_letter(byte: u8) -> bool
    ensures { result ≡ sp.is_letter byte }
{
    matches!(byte, b'a'..=b'z') || matches!(byte, b'A'..=b'Z')
}

fn is_scheme_byte(byte: u8) -> bool
    ensures { result ≡ sp.is_scheme_byte byte }
{
    is_letter(byte) || matches!(byte, b'0'..=b'9') || byte == b'+' || byte == b'-' || byte == b'.'
}

/// What stands behind `node:`.
fn node_module(name: &str) -> Specifier<'_>
    ensures { sp.meaning_in result ≡ sp.node_meaning name.now }
{
    if is_builtin(name) || is_prefixed_builtin(name) {
        Specifier::Builtin(name)
    } else {
        Specifier::UnknownBuiltin(name)
    }
}

/// What an address names.
fn address(text: &str) -> Specifier<'_>
    ensures { sp.meaning_in result ≡ sp.address_meaning text.now }
{
    let (scheme, rest) = split_scheme(text);
    if is_word(scheme, "node") {
        node_module(rest)
    } else if is_word(scheme, "file") {
        file_address(text, rest)
    } else {
        Specifier::Url(text)
    }
}

/// What stands before the first `:`, and behind it.
fn split_scheme(text: &str) -> (&str, &str)
    ensures scheme { result.0.now ≡ before_first sp.is_colon text.now }
    ensures rest { result.1.now ≡ after_first sp.is_colon text.now }
{
    match text.split_once(':') {
        Some(parts) => parts,
        None => (text, ""),
    }
}

/// Whether a text is a word, but for the case of letters of ASCII.
fn is_word(text: &str, word: &str) -> bool
    ensures { result ≡ bytes_eq (map to_ascii_lowercase text.now)
        (map to_ascii_lowercase word.now) }
{
    text.eq_ignore_ascii_case(word)
}

/// What the address of a file names, by what stands behind its scheme.
fn file_address<'a>(text: &'a str, rest: &'a str) -> Specifier<'a>
    ensures { sp.meaning_in result ≡ sp.file_meaning text.now rest.now }
{
    let path = file_path(rest);
    if begins_with(path, "/") {
        Specifier::File(path)
    } else {
        Specifier::Remote(text)
    }
}

/// What stands behind `//` and this machine's name.
fn file_path(rest: &str) -> &str
    ensures { result.now ≡ sp.file_path rest.now }
{
    match rest.strip_prefix("//") {
        Some(inner) => unhosted(inner),
        None => rest,
    }
}

/// What stands behind this machine's name.
fn unhosted(rest: &str) -> &str
    ensures { result.now ≡ sp.unhosted rest.now }
{
    match rest.strip_prefix("localhost") {
        Some(path) => path,
        None => rest,
    }
}

/// The package that a bare specifier names, and what stands behind its name: nothing, or a path that begins with `/`.
/// `None` where it is no name of a package: it begins with `.`, has `%` or `\`, or is a scope alone.
pub fn split_package(text: &str) -> Option<(&str, &str)>
    ensures whole { IfSome result (λ p. p.0.now ++ p.1.now ≡ text.now) }
    ensures named { IfSome result (λ p. p.0.now ≢ []) }
    ensures name { IfSome result (λ p. p.0.now ≡ sp.package_name text.now) }
{
    let (name, rest) = split_name(text)?;
    if name.is_empty() || name.starts_with('.') || name.contains('%') || name.contains('\\') {
        return None;
    }
    Some((name, rest))
}

/// The name up to the first `/`, or with a scope to the second, and the rest from there on.
fn split_name(text: &str) -> Option<(&str, &str)>
    ensures whole { IfSome result (λ p. p.0.now ++ p.1.now ≡ text.now) }
    ensures name { IfSome result (λ p. p.0.now ≡ sp.package_name text.now) }
{
    if !begins_with(text, "@") {
        return cut(text, first_part(text).len());
    }
    let (scope, behind) = text.split_once('/')?;
    let unscoped = first_part(behind).len();
    let at = scope.len().checked_add(1)?.checked_add(unscoped)?;
    cut(text, at)
}

/// The two parts of a text round a place.
fn cut(text: &str, at: usize) -> Option<(&str, &str)>
    ensures whole { IfSome result (λ p. p.0.now ++ p.1.now ≡ text.now) }
    ensures front { IfSome result (λ p. p.0.now ≡ take at text.now) }
{
    text.split_at_checked(at)
}

/// Whether Node has a module of its own by that name, with `node:` in front or not.
#[tactic(auto, unfolding(crate::specs::Specifiers::is_builtin))]
pub fn is_builtin(name: &str) -> bool
    ensures { result ≡ sp.is_builtin name.now }
{
    BUILTINS.contains(&name)
}

/// Whether Node has a module of its own by that name with `node:` in front, and only so.
#[tactic(auto, unfolding(crate::specs::Specifiers::is_prefixed_builtin))]
fn is_prefixed_builtin(name: &str) -> bool
    ensures { result ≡ sp.is_prefixed_builtin name.now }
{
    PREFIXED_BUILTINS.contains(&name)
}

const PREFIXED_BUILTINS: [&str; 4] = ["sea", "sqlite", "test", "test/reporters"];

const BUILTINS: [&str; 68] = [
    "_http_agent",
    "_http_client",
    "_http_common",
    "_http_incoming",
    "_http_outgoing",
    "_http_server",
    "_stream_duplex",
    "_stream_passthrough",
    "_stream_readable",
    "_stream_transform",
    "_stream_wrap",
    "_stream_writable",
    "_tls_common",
    "_tls_wrap",
    "assert",
    "assert/strict",
    "async_hooks",
    "buffer",
    "child_process",
    "cluster",
    "console",
    "constants",
    "crypto",
    "dgram",
    "diagnostics_channel",
    "dns",
    "dns/promises",
    "domain",
    "events",
    "fs",
    "fs/promises",
    "http",
    "http2",
    "https",
    "inspector",
    "inspector/promises",
    "module",
    "net",
    "os",
    "path",
    "path/posix",
    "path/win32",
    "perf_hooks",
    "process",
    "punycode",
    "querystring",
    "readline",
    "readline/promises",
    "repl",
    "stream",
    "stream/consumers",
    "stream/promises",
    "stream/web",
    "string_decoder",
    "sys",
    "timers",
    "timers/promises",
    "tls",
    "trace_events",
    "tty",
    "url",
    "util",
    "util/types",
    "v8",
    "vm",
    "wasi",
    "worker_threads",
    "zlib",
];

//! One pass over a list: the scopes, the declarations and the occurrences, with names as numbers.

ghost use Rattle.std.specs.Prelude.{◌≡◌, ◌+◌, ◌<◌, ◌++◌, ◌∷◌, [], ℕ, true, false, IfOk, OnOk, cond, drop, map, length, slice_get};
ghost use Rattle.std.specs.Option.{option_map, option_to_list};
ghost use Rattle.bundle_syntax.specs.Item as Items;
ghost use Rattle.bundle_syntax.specs.Item.{head_of, item_of};
ghost use Rattle.bundle_rules.specs.Places.{is_binding};
ghost use Rattle.bundle_rules.specs.Scopes as Scopes;
ghost use Rattle.bundle_rules.specs.Scopes.{exports_default};
ghost use Rattle.bundle_rules.specs.Declarations as Declarations;
ghost use Rattle.bundle_scope_denote.specs.Chains.{top_number};
ghost use Rattle.bundle_scope_denote.specs.Kinds as kinds;
ghost use Rattle.bundle_scope_denote.specs.Kinds.{kind_as, kind_made, kind_named, reading_as, scope_as};
ghost use Rattle.bundle_scope_denote.specs.Steps.{BeginsNode, EndsNode, WalksOn, IsBlank, IsTidyAt, IsWalkAt, IsWholeWalk, Occurs, Opens, Starts, StaysInWalk};
ghost use Rattle.bundle_scope_denote.specs.Numbers.{KeepsNumbers, name_as, numbered_scope, in_scope};
ghost use Rattle.bundle_scope_denote.specs.Hashed.{hashed, hashed-alike};
ghost use Rattle.bundle_scope_denote.specs.Walked as walked;
ghost use Rattle.bundle_scope_denote.specs.Walked.{InheritsOpen, IsDeclaredAlone, IsBare, IsDefault, StaysOnce, begins_node_by, begins_nameless, declared_as, is_identifier_by, is_nameless_by};

use crate::kinds::{
    block_in, is_default, is_field, is_pattern, is_quiet, kind_of_scope, leaves_first_out,
    loop_head, way_in, way_of_variable,
};
use crate::mixed::Mixed;
use crate::salt::Salt;
use crate::table::{ModuleKind, Reading, Scope, ScopeKind, Way};
use bundle_syntax::{Node, Piece, Role};
use indexmap::IndexSet;
use std::alloc::{AllocError, Global};
use std::hash::{Hash, Hasher};

/// A name: its symbol, and its context where names are read by symbol and context.
#[derive(Clone, Copy, PartialEq, Eq)]
pub(crate) struct NameKey<'a> {
    pub(crate) sym: &'a str,
    pub(crate) ctxt: Option<u32>,
}

// The symbol goes last, so that nothing has to stand behind it, and the context takes a whole word.
impl<'a> Hash for NameKey<'a> {
    ghost hash_input = { hashed };

    ghost respects_eq = { hashed-alike };

    fn hash<H: Hasher>(&self, state: &mut H) {
        if let Some(ctxt) = self.ctxt {
            state.write_u64(ctxt as u64);
        }
        state.write(self.sym.as_bytes());
    }
}

/// A name where it is declared: its number, and the innermost scope around the place.
#[derive(Clone, Copy)]
pub(crate) struct Declaration {
    pub(crate) place: usize,
    pub(crate) name: usize,
    pub(crate) way: Way,
    pub(crate) scope: usize,
}

/// An identifier that binds a name or refers to one: the number of the name, the innermost scope around it,
/// and the number of its declaration where it is one.
#[derive(Clone, Copy)]
pub(crate) struct NameOccurrence {
    pub(crate) place: usize,
    pub(crate) name: usize,
    pub(crate) scope: usize,
    pub(crate) declaration: Option<usize>,
}

/// What is asked of a node that is open: how it declares a name that stands in it, and the names of the declarators in
/// it; the innermost scope around it, and the scope that it makes; which scope a block makes right inside it, whether
/// it is a default declaration, which field of it is the head of a loop, and whether its scope leaves the first field
/// out.
#[derive(Clone, Copy)]
pub(crate) struct Open {
    pub(crate) way: Option<Way>,
    pub(crate) variable: Option<Way>,
    pub(crate) around: usize,
    pub(crate) own: Option<usize>,
    pub(crate) block: ScopeKind,
    pub(crate) is_default: bool,
    pub(crate) head: Option<u8>,
    pub(crate) leaves_first_out: bool,
}

/// An open node, and how many more of which the same is known are open right inside it, one in another.
#[derive(Clone, Copy)]
pub(crate) struct Nodes {
    pub(crate) node: Open,
    pub(crate) more: u32,
}

/// What was met so far. `top` is the number of the scope of the module's top; `inner` is the innermost open node,
/// and at last what is known outside all nodes; and so many more of which the same is known are open in it.
#[derive(Drop)]
pub(crate) struct ScopeWalk<'a> {
    pub(crate) scopes: Vec<Scope>,
    pub(crate) names: IndexSet<NameKey<'a>, Mixed>,
    pub(crate) declarations: Vec<Declaration>,
    pub(crate) occurrences: Vec<NameOccurrence>,
    pub(crate) top: usize,
    inner: Open,
    more: u32,
    outer: Vec<Nodes>,
    pub(crate) kind: ModuleKind,
    pub(crate) reading: Reading,
    pub(crate) salt: Salt,
}

impl<'a> ScopeWalk<'a> {
    /// Nothing was met yet.
    pub(crate) fn new(
        alloc: Global,
        kind: ModuleKind,
        reading: Reading,
        salt: Salt,
    ) -> ScopeWalk<'a>
        ensures blank { IsBlank result }
        ensures kind { result.kind ≡ kind }
        ensures reading { result.reading ≡ reading }
    {
        let top = top_of(kind);
        ScopeWalk {
            scopes: Vec::new(alloc),
            names: IndexSet::with_hasher(alloc, Mixed::of(&salt)),
            declarations: Vec::new(alloc),
            occurrences: Vec::new(alloc),
            top,
            inner: outermost(top),
            more: 0,
            outer: Vec::new(alloc),
            kind,
            reading,
            salt,
        }
    }

    /// Goes over a list.
    pub(crate) fn go_over(&mut self, pieces: &[Piece<'a>]) -> Result<(), AllocError>
        requires { IsBlank self.old }
        ensures whole { OnOk result
            (IsWholeWalk self.new (reading_as self.old.reading) (kind_as self.old.kind)
            (map item_of pieces.now)) }
        ensures stays { OnOk result (StaysInWalk self.old self.new) }
    {
        self.make_room(pieces.len())?;
        self.start()?;
        for place in 0..pieces.len() {
            self.step(pieces, place)?;
        }
        Ok(())
    }

    // Makes room for what so many pieces have, as a rule.
    fn make_room(&mut self, count: usize) -> Result<(), AllocError>
        requires { IsBlank self.old }
        ensures blank { IsBlank self.new }
        ensures stays { StaysInWalk self.old self.new }
    {
        self.scopes.reserve(count / 12)?;
        self.names.reserve(count / 12)?;
        self.declarations.reserve(count / 12)?;
        self.occurrences.reserve(count / 6)?;
        Ok(())
    }

    // The module begins.
    fn start(&mut self) -> Result<(), AllocError>
        requires { IsBlank self.old }
        ensures { OnOk result (Starts self.old self.new) }
    {
        match self.kind {
            ModuleKind::Es => self.start_top(),
            ModuleKind::Cjs => self.start_wrapped(),
        }
    }

    // An ECMAScript module begins.
    fn start_top(&mut self) -> Result<(), AllocError>
        requires blank { IsBlank self.old }
        requires kind { self.old.kind ≡ ModuleKind.Es }
        ensures { OnOk result (Starts self.old self.new) }
    {
        add_scope(&mut self.scopes, ScopeKind::Top, None, 0)?;
        Ok(())
    }

    // A CommonJS module begins, whose parameters are declared.
    fn start_wrapped(&mut self) -> Result<(), AllocError>
        requires blank { IsBlank self.old }
        requires kind { self.old.kind ≡ ModuleKind.Cjs }
        ensures { OnOk result (Starts self.old self.new) }
    {
        let wrapper = add_scope(&mut self.scopes, ScopeKind::Wrapper, None, 0)?;
        add_scope(&mut self.scopes, ScopeKind::Top, Some(wrapper), 0)?;
        let module = alone(&mut self.names, "module", Way::Wrapper, 0, wrapper)?;
        self.declarations.push(module)?;
        let exports = alone(&mut self.names, "exports", Way::Wrapper, 0, wrapper)?;
        self.declarations.push(exports)?;
        Ok(())
    }

    // Goes on by the piece at a place.
    fn step(&mut self, pieces: &[Piece<'a>], place: usize) -> Result<(), AllocError>
        requires within { place < length pieces.now }
        requires before { IsWalkAt self.old (map item_of pieces.now) place }
        requires tidy { IsTidyAt self.old place }
        ensures goes { OnOk result (WalksOn self.old self.new (map item_of pieces.now) place) }
        ensures tidy { OnOk result (IsTidyAt self.new (place + 1)) }
    {
        match &pieces[place] {
            Piece::Open { field, node } => self.begin(pieces, place, *field, node),
            Piece::Ident {
                field,
                sym,
                ctxt,
                role,
            } => {
                if is_occurrence(*role) {
                    self.name(place, *field, *sym, *ctxt, *role)
                } else {
                    Ok(())
                }
            }
            Piece::Hole { .. } => Ok(()),
            Piece::Close => {
                self.end();
                Ok(())
            }
        }
    }

    // A node begins.
    fn begin(
        &mut self,
        pieces: &[Piece<'a>],
        place: usize,
        field: u8,
        node: &Node<'a>,
    ) -> Result<(), AllocError>
        requires within { place < length pieces.now }
        requires at { slice_get (map item_of pieces.now) place
            ≡ Some (Items.Open field (head_of node.now)) }
        ensures { OnOk result
            (BeginsNode self.old self.new place field (head_of node.now)
            (begins_nameless (map item_of (drop place pieces.now)))) }
    {
        if is_quiet(node) {
            self.begin_quiet(field, node)
        } else {
            self.begin_other(pieces, place, field, node)
        }
    }

    // A node begins for which nothing is to be noted but how it declares the names in it.
    fn begin_quiet(&mut self, field: u8, node: &Node<'a>) -> Result<(), AllocError>
        requires { kinds.is_quiet (head_of node.now) ≡ true }
        ensures { OnOk result
            ((place : ℕ) → BeginsNode self.old self.new place field (head_of node.now) false) }
    {
        if self.more < u32::MAX && goes_on(node, &self.inner) {
            self.more += 1;
            return Ok(());
        }
        let way = if is_pattern(node) {
            self.inner.way
        } else {
            None
        };
        let around = scope_in(&self.inner, field);
        self.open(quiet(way, around))
    }

    // Any other node begins.
    fn begin_other(
        &mut self,
        pieces: &[Piece<'a>],
        place: usize,
        field: u8,
        node: &Node<'a>,
    ) -> Result<(), AllocError>
        requires { place < length pieces.now }
        ensures { OnOk result
            (BeginsNode self.old self.new place field (head_of node.now)
            (begins_nameless (map item_of (drop place pieces.now)))) }
    {
        let default = default_at(&mut self.names, &pieces[place..], place, self.top)?;
        push_some(&mut self.declarations, default)?;
        let around = scope_in(&self.inner, field);
        let made = made_by(node, &self.inner, around, place);
        let own = push_scope(&mut self.scopes, made)?;
        let opened = opened(node, field, &self.inner, around, own);
        self.open(opened)
    }

    // The innermost node is this one now.
    fn open(&mut self, node: Open) -> Result<(), AllocError>
        ensures { OnOk result (Opens self.old self.new node) }
    {
        self.outer.push(Nodes {
            node: self.inner,
            more: self.more,
        })?;
        self.inner = node;
        self.more = 0;
        Ok(())
    }

    // An identifier that binds or refers.
    fn name(
        &mut self,
        place: usize,
        field: u8,
        sym: &'a str,
        ctxt: u32,
        role: Role,
    ) -> Result<(), AllocError>
        ensures { OnOk result (Occurs self.old self.new place field sym.now ctxt role) }
    {
        let scope = scope_in(&self.inner, field);
        let name = number_of(&mut self.names, name_of(self.reading, sym, ctxt))?;
        let way = way_for(&self.inner, role);
        let declared = declared_by(way, place, name, scope);
        let declaration = push_some(&mut self.declarations, declared)?;
        self.occurrences.push(NameOccurrence {
            place,
            name,
            scope,
            declaration,
        })?;
        Ok(())
    }

    // The innermost node ends.
    fn end(&mut self)
        ensures { EndsNode self.old self.new }
    {
        if self.more > 0 {
            self.more -= 1;
            return;
        }
        if let Some(outer) = self.outer.pop() {
            self.inner = outer.node;
            self.more = outer.more;
        }
    }
}

// The number of the scope of a module's top.
fn top_of(kind: ModuleKind) -> usize
    ensures { result ≡ top_number (kind_as kind) }
{
    match kind {
        ModuleKind::Es => 0,
        ModuleKind::Cjs => 1,
    }
}

// What is known outside all nodes.
fn outermost(top: usize) -> Open
    ensures way { result.way ≡ None }
    ensures variable { result.variable ≡ None }
    ensures around { result.around ≡ top }
    ensures own { result.own ≡ None }
    ensures block { result.block ≡ ScopeKind.Block }
    ensures default { result.is_default ≡ false }
    ensures head { result.head ≡ None }
    ensures left { result.leaves_first_out ≡ false }
{
    Open {
        way: None,
        variable: None,
        around: top,
        own: None,
        block: ScopeKind::Block,
        is_default: false,
        head: None,
        leaves_first_out: false,
    }
}

// Whether the same is known of a node for which nothing is to be noted as of the innermost one.
fn goes_on<'a>(node: &Node<'a>, inner: &Open) -> bool
    ensures { result ≡ true → InheritsOpen (head_of node.now) inner.now }
{
    if inner.way.is_some() && !is_pattern(node) {
        return false;
    }
    is_bare(inner)
}

// Whether nothing is noted of an open node but how it declares the names in it.
fn is_bare(inner: &Open) -> bool
    ensures { result ≡ true → IsBare inner.now }
{
    inner.own.is_none()
        && inner.variable.is_none()
        && inner.head.is_none()
        && inner.block == ScopeKind::Block
        && !inner.is_default
        && !inner.leaves_first_out
}

// A node of which nothing is noted but how it declares the names in it.
fn quiet(way: Option<Way>, around: usize) -> Open
    ensures way { result.way ≡ way }
    ensures around { result.around ≡ around }
    ensures bare { IsBare result }
{
    Open {
        way,
        variable: None,
        around,
        own: None,
        block: ScopeKind::Block,
        is_default: false,
        head: None,
        leaves_first_out: false,
    }
}

// A node as it begins in a field of the innermost one.
fn opened<'a>(node: &Node<'a>, field: u8, inner: &Open, around: usize, own: Option<usize>) -> Open
    ensures way { result.way
        ≡ cond (Declarations.is_pattern (head_of node.now)) inner.now.way
        (kinds.head_way_in (head_of node.now) inner.now.variable inner.now.is_default) }
    ensures variable { result.variable
        ≡ kinds.variable_way (head_of node.now) (kinds.is_in_field inner.now.head field) }
    ensures around { result.around ≡ around }
    ensures own { result.own ≡ own }
    ensures block { result.block ≡ kind_named (Scopes.block_in (head_of node.now)) }
    ensures default { result.is_default ≡ exports_default (head_of node.now) }
    ensures head { (place : ℕ) →
        kinds.is_in_field result.head place ≡ Declarations.is_loop_head (head_of node.now) place }
    ensures left { result.leaves_first_out ≡ kinds.leaves_first_out (head_of node.now) }
{
    let way = if is_pattern(node) {
        inner.way
    } else {
        way_in(node, inner.variable, inner.is_default)
    };
    Open {
        way,
        variable: way_of_variable(node, is_field(inner.head, field)),
        around,
        own,
        block: block_in(node),
        is_default: is_default(node),
        head: loop_head(node),
        leaves_first_out: leaves_first_out(node),
    }
}

// The number of the innermost scope around what stands in this field of an open node.
fn scope_in(node: &Open, field: u8) -> usize
    ensures { result ≡ walked.scope_in node.now field }
{
    match node.own {
        None => node.around,
        Some(own) => if node.leaves_first_out && field == 0 {
            node.around
        } else {
            own
        },
    }
}

// The scope that a node makes, where it makes one.
fn made_by<'a>(node: &Node<'a>, inner: &Open, around: usize, place: usize) -> Option<Scope>
    ensures { option_map numbered_scope result
        ≡ option_map (in_scope place around)
        (kind_made (head_of node.now) inner.now.block inner.now.is_default) }
{
    let kind = kind_of_scope(node, inner.block, inner.is_default)?;
    Some(Scope {
        kind,
        outer: Some(around),
        begins: place,
    })
}

// Whether an identifier binds or refers.
fn is_occurrence(role: Role) -> bool
    ensures { result ≡ walked.occurs_as role }
{
    role != Role::Word
}

// How an identifier declares its name, with this node around it.
fn way_for(inner: &Open, role: Role) -> Option<Way>
    ensures { result ≡ cond (is_binding role) inner.now.way None }
{
    if role == Role::Binding {
        inner.way
    } else {
        None
    }
}

// The declaration, where a way is known.
fn declared_by(way: Option<Way>, place: usize, name: usize, scope: usize) -> Option<Declaration>
    ensures { result ≡ option_map (declared_as place name scope) way }
{
    let way = way?;
    Some(Declaration {
        place,
        name,
        way,
        scope,
    })
}

// The name that an identifier has in a reading.
fn name_of<'a>(reading: Reading, sym: &'a str, ctxt: u32) -> NameKey<'a>
    ensures { name_as result ≡ Declarations.name_of (reading_as reading) sym.now ctxt }
{
    match reading {
        Reading::BySymbol => NameKey { sym, ctxt: None },
        Reading::ByContext => NameKey {
            sym,
            ctxt: Some(ctxt),
        },
    }
}

/// The number of a name, which it gets if it has none.
pub(crate) fn number_of<'a>(
    names: &mut IndexSet<NameKey<'a>, Mixed>,
    name: NameKey<'a>,
) -> Result<usize, AllocError>
    ensures keeps { OnOk result
        (KeepsNumbers (map name_as names.old.keys) (map name_as names.new.keys)) }
    ensures once { OnOk result
        (StaysOnce (map name_as names.old.keys) (map name_as names.new.keys)) }
    ensures number { IfOk result (λ number.
        slice_get (map name_as names.new.keys) number ≡ Some (name_as name.entry)) }
{
    let (number, _) = names.insert_full(name)?;
    Ok(number)
}

// The declaration of a name for which no identifier stands.
fn alone<'a>(
    names: &mut IndexSet<NameKey<'a>, Mixed>,
    sym: &'a str,
    way: Way,
    place: usize,
    scope: usize,
) -> Result<Declaration, AllocError>
    ensures keeps { OnOk result
        (KeepsNumbers (map name_as names.old.keys) (map name_as names.new.keys)) }
    ensures once { OnOk result
        (StaysOnce (map name_as names.old.keys) (map name_as names.new.keys)) }
    ensures declaration { IfOk result
        (IsDeclaredAlone (map name_as names.new.keys) place scope way sym.now) }
{
    let name = number_of(names, NameKey { sym, ctxt: None })?;
    Ok(Declaration {
        place,
        name,
        way,
        scope,
    })
}

// The declaration of the default export without a name that begins with the first of these pieces, if one does.
fn default_at<'a>(
    names: &mut IndexSet<NameKey<'a>, Mixed>,
    rest: &[Piece<'a>],
    place: usize,
    top: usize,
) -> Result<Option<Declaration>, AllocError>
    ensures keeps { OnOk result
        (KeepsNumbers (map name_as names.old.keys) (map name_as names.new.keys)) }
    ensures once { OnOk result
        (StaysOnce (map name_as names.old.keys) (map name_as names.new.keys)) }
    ensures declaration { IfOk result
        (IsDefault (map name_as names.new.keys) place top
        (begins_nameless (map item_of rest.now))) }
{
    if !is_nameless_default(rest) {
        return Ok(None);
    }
    let declaration = alone(names, "default", Way::Default, place, top)?;
    Ok(Some(declaration))
}

// Whether a default export without a name begins with the first of these pieces.
fn is_nameless_default<'a>(rest: &[Piece<'a>]) -> bool
    ensures { result ≡ begins_nameless (map item_of rest.now) }
{
    is_nameless(piece_at(rest, 0), piece_at(rest, 1), piece_at(rest, 2))
}

// The piece so many places on.
fn piece_at<'a>(rest: &[Piece<'a>], number: usize) -> Option<Piece<'a>>
    ensures { option_map item_of result ≡ slice_get (map item_of rest.now) number }
{
    rest.get(number).copied()
}

// The same by the first three of them.
fn is_nameless<'a>(
    first: Option<Piece<'a>>,
    second: Option<Piece<'a>>,
    third: Option<Piece<'a>>,
) -> bool
    ensures { result
        ≡ is_nameless_by (option_map item_of first.entry) (option_map item_of second.entry)
        (option_map item_of third.entry) }
{
    match first {
        Some(Piece::Open { node, .. }) => match node {
            Node::ExportDefaultExpr => true,
            Node::ExportDefaultDecl => !(begins_node(second) && is_identifier(third)),
            _ => false,
        },
        _ => false,
    }
}

// Whether a node begins.
fn begins_node<'a>(piece: Option<Piece<'a>>) -> bool
    ensures { result ≡ begins_node_by (option_map item_of piece.entry) }
{
    match piece {
        Some(Piece::Open { .. }) => true,
        _ => false,
    }
}

// Whether an identifier stands there.
fn is_identifier<'a>(piece: Option<Piece<'a>>) -> bool
    ensures { result ≡ is_identifier_by (option_map item_of piece.entry) }
{
    match piece {
        Some(Piece::Ident { .. }) => true,
        _ => false,
    }
}

// Adds what is there, and answers its number.
fn push_some(
    declarations: &mut Vec<Declaration>,
    declaration: Option<Declaration>,
) -> Result<Option<usize>, AllocError>
    ensures items { OnOk result
        (declarations.new.items ≡ declarations.old.items ++ option_to_list declaration) }
    ensures number { IfOk result (λ number.
        number ≡ option_map (λ _. length declarations.old.items) declaration) }
{
    let Some(declaration) = declaration else {
        return Ok(None);
    };
    let number = declarations.len();
    declarations.push(declaration)?;
    Ok(Some(number))
}

// Adds a scope where there is one, and answers its number.
fn push_scope(scopes: &mut Vec<Scope>, made: Option<Scope>) -> Result<Option<usize>, AllocError>
    ensures items { OnOk result
        (map numbered_scope scopes.new.items
        ≡ map numbered_scope scopes.old.items ++ option_to_list (option_map numbered_scope made)) }
    ensures number { IfOk result (λ number.
        number
        ≡ option_map (λ _. length (map numbered_scope scopes.old.items))
        (option_map numbered_scope made)) }
{
    let Some(made) = made else {
        return Ok(None);
    };
    let number = add_scope(scopes, made.kind, made.outer, made.begins)?;
    Ok(Some(number))
}

// Adds a scope, and answers its number.
fn add_scope(
    scopes: &mut Vec<Scope>,
    kind: ScopeKind,
    outer: Option<usize>,
    begins: usize,
) -> Result<usize, AllocError>
    ensures items { OnOk result
        (map numbered_scope scopes.new.items
        ≡ map numbered_scope scopes.old.items
        ++ record { scope = scope_as kind begins; outer = outer } ∷ []) }
    ensures number { IfOk result (λ number. number ≡ length (map numbered_scope scopes.old.items)) }
{
    let number = scopes.len();
    scopes.push(Scope {
        kind,
        outer,
        begins,
    })?;
    Ok(number)
}

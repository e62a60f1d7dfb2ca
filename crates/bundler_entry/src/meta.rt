//! What the hook answers for the modules of a bundle that have `import.meta` (ECMA-262, 13.3.12.1).

ghost use Rattle.std.specs.Prelude.{◌≡◌, codes, map, slice_get, IfOk, IfErr, IfSome, List, OnOk};
ghost use Rattle.std.specs.List.{flat_map, list_any};
ghost use Rattle.bundle_scope_denote.specs.Listed.{IsDenotationTable};
ghost use Rattle.bundle_tree_names.specs.FileName.{name_of};
ghost use Rattle.bundle_syntax.specs.Item.{Item, Open, head_of, item_of};
ghost use Rattle.bundle_tree_listed.specs.Tree.{key_value_prop_items};
ghost use Rattle.bundle_rules.specs.Declarations.{BySymbol};
ghost use Rattle.bundle_rules.specs.Scopes.{Es};
ghost use Rattle.bundle_link_tables.specs.Free.{frees_name, is_ident_called};
ghost use Rattle.bundle_tree_places.specs.Heads.{begins_here};
ghost use Rattle.bundle_rules.specs.Bound.{has_free};
ghost use Rattle.bundle_rules.specs.Bundle as bundle;
ghost use Rattle.bundle_rules.specs.Bundle.{properties_tree};
ghost use Rattle.bundle_rules.specs.Faults.{HookFails, fault_of};
ghost use Rattle.bundle_rules.specs.Nodes.{has_head};
ghost use Rattle.bundler_entry.specs.Hook.{IsAskedFault, IsFaultOfAnswer, IsMetaRead, IsRightAnswer};
ghost use Rattle.bundler_entry.specs.Unlinked.{error_of};

use crate::fault::doubled_refusal;
use crate::unlinked::EntryError;
use bundle_scope_denote::{Denotations, Denoted, ModuleKind, Reading, denotations, first_doubled};
use bundle_syntax::{Node, Piece};
use bundle_tree::hook::{Hook, HookError, ModuleRecord};
use bundle_tree_ast::KeyValueProp;
use bundle_tree_list::pieces_of_properties;
use bundle_tree_names::file_name::FileName;
use std::alloc::{AllocError, Global};

/// An answer as it was read: the properties, the list of a module of one statement, an object that has them, and what
/// the names in it denote.
#[derive(Drop)]
pub struct ReadMeta<'x> {
    pub properties: &'x [KeyValueProp],
    pub pieces: Vec<Piece<'x>>,
    pub names: Denotations<'x>,
}

/// Asks the hook for a module. Refused where the hook fails, where the answer declares a name twice or has a `with`
/// statement, and, where the bundle is one function's call, where a free `arguments` stands in it.
pub fn ask(
    alloc: Global,
    hook: &dyn Hook,
    file: &FileName,
    given: &FileName,
    is_entry: bool,
    is_iife: bool,
) -> Result<Vec<KeyValueProp>, EntryError>
    ensures given { IfOk result (λ properties.
        may_give hook.now (name_of given.now) is_entry properties.items) }
    ensures right { IfOk result (λ properties.
        IsRightAnswer is_iife (flat_map (key_value_prop_items 0) properties.items)) }
    ensures refused { IfErr result (λ unlinked.
        IfSome (fault_of (error_of unlinked))
        (IsAskedFault (may_give hook.now) (may_fail_hook hook.now) (name_of given.now) is_entry
        is_iife (name_of file.now))) }
{
    let properties = given_by(alloc, hook, file, given, is_entry)?;
    judge(alloc, file, properties.as_slice(), is_iife)?;
    Ok(properties)
}

// What the hook gives for a module. Refused where it fails.
fn given_by(
    alloc: Global,
    hook: &dyn Hook,
    file: &FileName,
    given: &FileName,
    is_entry: bool,
) -> Result<Vec<KeyValueProp>, EntryError>
    ensures given { IfOk result (λ properties.
        may_give hook.now (name_of given.now) is_entry properties.items) }
    ensures failed { IfErr result (λ unlinked.
        IfSome (fault_of (error_of unlinked)) (λ fault.
        (fault ≡ HookFails (name_of file.now))
        × may_fail_hook hook.now (name_of given.now) is_entry)) }
{
    let record = ModuleRecord {
        file_name: given.clone()?,
        is_entry,
    };
    match hook.get_import_meta_props(alloc, &record) {
        Ok(properties) => Ok(properties),
        Err(error) => Err(hook_refusal(file, error)?),
    }
}

// The refusal where the hook gives nothing.
fn hook_refusal(file: &FileName, error: HookError) -> Result<EntryError, AllocError>
    ensures { IfOk result (λ unlinked. IfSome (fault_of (error_of unlinked)) (λ fault.
        (fault ≡ HookFails (name_of file.now)) × (error ≡ HookError.Failed))) }
{
    Ok(match error {
        HookError::Failed => EntryError::Hook {
            file: file.clone()?,
        },
        HookError::OutOfMemory => EntryError::OutOfMemory,
    })
}

// Refuses an answer that has a fault of its own.
fn judge(
    alloc: Global,
    file: &FileName,
    properties: &[KeyValueProp],
    is_iife: bool,
) -> Result<(), EntryError>
    ensures right { OnOk result
        (IsRightAnswer is_iife (flat_map (key_value_prop_items 0) properties.now)) }
    ensures wrong { IfErr result (λ unlinked.
        IfSome (fault_of (error_of unlinked))
        (IsFaultOfAnswer is_iife (name_of file.now)
        (flat_map (key_value_prop_items 0) properties.now))) }
{
    let meta = read_meta(alloc, properties)?;
    judge_list(alloc, file, meta.pieces.as_slice(), &meta.names, is_iife)
}

// Refuses the list of an answer, where these are its names.
fn judge_list<'x>(
    alloc: Global,
    file: &FileName,
    pieces: &[Piece<'x>],
    names: &Denotations<'x>,
    is_iife: bool,
) -> Result<(), EntryError>
    requires { IsDenotationTable BySymbol Es (map item_of pieces.now) names.now }
    ensures right { OnOk result
        ((answer : List Item) →
        map item_of pieces.now ≡ properties_tree answer → IsRightAnswer is_iife answer) }
    ensures wrong { IfErr result (λ unlinked.
        (answer : List Item) →
        map item_of pieces.now ≡ properties_tree answer →
        IfSome (fault_of (error_of unlinked)) (IsFaultOfAnswer is_iife (name_of file.now) answer)) }
{
    if let Some(doubled) = first_doubled(alloc, pieces, ModuleKind::Es)? {
        return Err(doubled_refusal(alloc, file, doubled)?);
    }
    if has_with(pieces) {
        return Err(EntryError::With {
            file: file.clone()?,
        });
    }
    if is_iife && has_free_arguments(pieces, names) {
        return Err(EntryError::ArgumentsUnderIife {
            file: file.clone()?,
        });
    }
    Ok(())
}

// Whether a `with` statement stands in a list.
fn has_with(pieces: &[Piece]) -> bool
    ensures { result ≡ has_head bundle.is_with (map item_of pieces.now) }
{
    some_with(pieces)
}

// The same, asked of each element.
fn some_with(pieces: &[Piece]) -> bool
    ensures { result ≡ list_any (λ x. begins_here bundle.is_with (item_of x)) pieces.now }
{
    pieces.iter().any(|piece| is_with(*piece))
}

// Whether a `with` statement begins here.
fn is_with(piece: Piece) -> bool
    ensures { result ≡ begins_here bundle.is_with (item_of piece.entry) }
{
    match piece {
        Piece::Open {
            node: Node::WithStmt,
            ..
        } => true,
        _ => false,
    }
}

// Whether an `arguments` stands there that nothing binds.
fn has_free_arguments(pieces: &[Piece], names: &Denotations) -> bool
    ensures { IsDenotationTable BySymbol Es (map item_of pieces.now) names.now →
        result ≡ has_free (map item_of pieces.now) (codes "arguments") }
{
    some_free(pieces, names)
}

// The same, asked of each occurrence.
fn some_free(pieces: &[Piece], names: &Denotations) -> bool
    ensures { result
        ≡ list_any (frees_name (map item_of pieces.now) (codes "arguments"))
        names.now.occurrences.items }
{
    names
        .occurrences
        .iter()
        .any(|occurrence| is_free_arguments(pieces, *occurrence))
}

// Whether an occurrence is of `arguments`, and nothing binds it.
fn is_free_arguments(pieces: &[Piece], occurrence: Denoted) -> bool
    ensures { result ≡ frees_name (map item_of pieces.now) (codes "arguments") occurrence }
{
    is_arguments(pieces, occurrence.place) && occurrence.binding.is_none()
}

// Whether an identifier `arguments` stands at a place.
#[tactic(auto, using(std::proofs::lemmas::Grind::common_steps, std::proofs::lemmas::Option::gets, bundle_link_tables::proofs::MarkLemmas::get_mapped))]
fn is_arguments(pieces: &[Piece], place: usize) -> bool
    ensures { result ≡ is_ident_called (codes "arguments") (slice_get (map item_of pieces.now) place) }
{
    match pieces.get(place) {
        Some(Piece::Ident { sym, .. }) => "arguments" == *sym,
        _ => false,
    }
}

/// Reads an answer.
pub fn read_meta<'x>(
    alloc: Global,
    properties: &'x [KeyValueProp],
) -> Result<ReadMeta<'x>, AllocError>
    ensures { IfOk result (IsMetaRead properties.now) }
{
    let pieces = pieces_of_object(alloc, properties)?;
    let names = denotations(alloc, pieces.as_slice(), ModuleKind::Es, Reading::BySymbol)?;
    Ok(ReadMeta {
        properties,
        pieces,
        names,
    })
}

// The list of a module of one statement, an object that has these properties.
fn pieces_of_object<'x>(
    alloc: Global,
    properties: &'x [KeyValueProp],
) -> Result<Vec<Piece<'x>>, AllocError>
    ensures { IfOk result (λ pieces. map item_of pieces.items
        ≡ properties_tree (flat_map (key_value_prop_items 0) properties.now)) }
{
    let inside = pieces_of_properties(alloc, properties)?;
    let mut pieces = Vec::new(alloc);
    pieces.extend_from_slice(&[
        opened(Node::Module),
        opened(Node::ExprStmt),
        opened(Node::ObjectLit),
    ])?;
    pieces.extend_from_slice(inside.as_slice())?;
    pieces.extend_from_slice(&[Piece::Close, Piece::Close, Piece::Close])?;
    Ok(pieces)
}

// The beginning of a node that stands in field 0.
fn opened<'x>(node: Node<'x>) -> Piece<'x>
    ensures { item_of result ≡ Open 0 (head_of node.entry) }
{
    Piece::Open { field: 0, node }
}

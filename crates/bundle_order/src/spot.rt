//! What is known of a place by the nodes around it.

ghost use Rattle.std.specs.Prelude.{◌≡◌, ◌||◌, ◌&&◌, ℕ, [], List};
ghost use Rattle.bundle_syntax.specs.Item.{Item, head_of};
ghost use Rattle.bundle_rules.specs.Deferred.{runs_later};
ghost use Rattle.bundle_rules.specs.Places.{Around};
ghost use Rattle.bundle_rules.specs.Order as order;
ghost use Rattle.bundle_rules.specs.Order.{has_no_value, is_in_assign_of, passes_assignments};
ghost use Rattle.bundle_order.specs.Known as Known;
ghost use Rattle.bundle_order.specs.Known.{IsKnown, path_in};
ghost use Rattle.bundle_order.specs.Open.{IsItemSpot, calls_assign, no_value_at};
ghost use Rattle.bundle_order.specs.declared.told.TopBinding as TopBinding;

use bundle_syntax::Node;

/// What is known of a place by the nodes around it in its item.
#[derive(Clone, Copy)]
pub(crate) struct ItemSpot {
    /// It is a target of an assignment, parentheses and patterns aside (ECMA-262, 13.15).
    pub(crate) is_assigned: bool,
    /// What stands there is the rest of a chain of members that is assigned to.
    pub(crate) ends_chain: bool,
    /// It is the root of a chain of at least one member that is assigned to.
    pub(crate) roots_chain: bool,
    /// It lies in an argument of a call of `Object.assign`.
    pub(crate) is_in_assign: bool,
    /// It lies in an argument of a call.
    pub(crate) is_in_argument: bool,
    /// It runs later than its item: it lies in a function, or in what a field of an instance starts with.
    pub(crate) is_later: bool,
    /// Where the nearest declarator around it begins.
    pub(crate) declarator: Option<usize>,
}

/// An open node: where it begins, what is known of that place, and whether it is a call of `Object.assign`.
#[derive(Clone, Copy)]
pub(crate) struct ItemFrame<'a> {
    pub(crate) node: Node<'a>,
    pub(crate) begins: usize,
    pub(crate) spot: ItemSpot,
    pub(crate) is_object_assign: bool,
}

impl ItemSpot {
    /// A place outside all nodes.
    pub(crate) fn outside() -> ItemSpot
        ensures { (item : List Item) (told : ℕ → TopBinding.TopBinding) → IsItemSpot item told result [] }
    {
        ItemSpot {
            is_assigned: false,
            ends_chain: false,
            roots_chain: false,
            is_in_assign: false,
            is_in_argument: false,
            is_later: false,
            declarator: None,
        }
    }

    /// A place directly in this field of an open node.
    pub(crate) fn inside<'a>(frame: &ItemFrame<'a>, field: u8) -> ItemSpot
        ensures known { (outer : List Around) →
            IsKnown frame.now.spot outer → IsKnown result (path_in frame.now field outer) }
        ensures later { (outer : List Around) →
            frame.now.spot.is_later ≡ runs_later outer →
            result.is_later ≡ runs_later (path_in frame.now field outer) }
        ensures assign { (item : List Item) (told : ℕ → TopBinding.TopBinding) (outer : List Around) →
            frame.now.is_object_assign
            ≡ calls_assign item told (head_of frame.now.node) frame.now.begins →
            frame.now.spot.is_in_assign
            ≡ is_in_assign_of (λ place. (told place).is_object) item outer →
            result.is_in_assign
            ≡ is_in_assign_of (λ place. (told place).is_object) item
            (path_in frame.now field outer) }
        ensures empty { (item : List Item) (outer : List Around) →
            no_value_at item frame.now.spot.declarator ≡ has_no_value item outer →
            no_value_at item result.declarator
            ≡ has_no_value item (path_in frame.now field outer) }
    {
        let node = frame.node;
        let outer = frame.spot;
        let is_step = is_chain_step(node, field);
        let is_parenthesis = is_parenthesis(node);
        let passes_on = either(is_step, is_parenthesis);
        let passes = both(passes_targets(node, field), outer.is_assigned);
        let is_assigned = either(assigns(node, field), passes);
        let is_argument = both(is_any_call(node), field == 1);
        ItemSpot {
            is_assigned,
            ends_chain: either(both(passes_on, outer.ends_chain), is_assigned),
            roots_chain: either(
                both(is_step, outer.ends_chain),
                both(is_parenthesis, outer.roots_chain),
            ),
            is_in_assign: is_in_assign_in(frame, field),
            is_in_argument: either(is_argument, outer.is_in_argument),
            is_later: is_later_in(frame, field),
            declarator: declarator_in(frame),
        }
    }
}

// Whether what stands in this field of an open node lies in an argument of a call of `Object.assign`.
fn is_in_assign_in<'a>(frame: &ItemFrame<'a>, field: u8) -> bool
    ensures { (item : List Item) (told : ℕ → TopBinding.TopBinding) (outer : List Around) →
        frame.now.is_object_assign
        ≡ calls_assign item told (head_of frame.now.node) frame.now.begins →
        frame.now.spot.is_in_assign
        ≡ is_in_assign_of (λ place. (told place).is_object) item outer →
        result
        ≡ is_in_assign_of (λ place. (told place).is_object) item
        (path_in frame.now field outer) }
{
    if field == 1 {
        either(frame.is_object_assign, frame.spot.is_in_assign)
    } else {
        frame.spot.is_in_assign
    }
}

/// Whether one of the two holds.
pub(crate) fn either(one: bool, other: bool) -> bool
    ensures { result ≡ (one || other) }
{
    one || other
}

/// Whether both hold.
pub(crate) fn both(one: bool, other: bool) -> bool
    ensures { result ≡ (one && other) }
{
    one && other
}

// Where the nearest declarator around what stands in an open node begins.
fn declarator_in<'a>(frame: &ItemFrame<'a>) -> Option<usize>
    ensures { (item : List Item) (field : ℕ) (outer : List Around) →
        no_value_at item frame.now.spot.declarator ≡ has_no_value item outer →
        no_value_at item result ≡ has_no_value item (path_in frame.now field outer) }
{
    if is_declarator(frame.node) {
        Some(frame.begins)
    } else {
        frame.spot.declarator
    }
}

// Whether such a node is a declarator.
fn is_declarator<'a>(node: Node<'a>) -> bool
    ensures { result ≡ order.is_declarator (head_of node.entry) }
{
    match node {
        Node::VarDeclarator => true,
        _ => false,
    }
}

// Whether such a node assigns to what stands in this field.
fn assigns<'a>(node: Node<'a>, field: u8) -> bool
    ensures { result ≡ order.assigns (head_of node.entry) field }
{
    match node {
        Node::AssignExpr { .. } => field == 1,
        _ => false,
    }
}

// Whether what stands in this field of such a node is a target where the node is one: parentheses and patterns.
fn passes_targets<'a>(node: Node<'a>, field: u8) -> bool
    ensures { result ≡ passes_assignments (head_of node.entry) field }
{
    match node {
        Node::BindingIdent => true,
        Node::ParenExpr => true,
        Node::ArrayPat => true,
        Node::ObjectPat => true,
        Node::RestPat => true,
        Node::AssignPat => field == 0,
        Node::AssignPatProp => field == 0,
        Node::KeyValuePatProp => field == 1,
        _ => false,
    }
}

// Whether such a node reads a member of what stands in this field.
fn is_chain_step<'a>(node: Node<'a>, field: u8) -> bool
    ensures { result ≡ order.is_chain_step (head_of node.entry) field }
{
    match node {
        Node::MemberExpr => field == 0,
        _ => false,
    }
}

// Whether such a node is a pair of parentheses.
fn is_parenthesis<'a>(node: Node<'a>) -> bool
    ensures { result ≡ order.is_parenthesis (head_of node.entry) }
{
    match node {
        Node::ParenExpr => true,
        _ => false,
    }
}

// Whether such a node calls what is in its first field with what is in its second.
fn is_any_call<'a>(node: Node<'a>) -> bool
    ensures { result ≡ order.is_any_call (head_of node.entry) }
{
    match node {
        Node::CallExpr => true,
        Node::OptCall => true,
        _ => false,
    }
}

// Whether what stands in this field of an open node runs later than the item.
#[tactic(auto, using(crate::proofs::LaterLemmas::later_inside))]
fn is_later_in<'a>(frame: &ItemFrame<'a>, field: u8) -> bool
    ensures { (outer : List Around) →
        frame.now.spot.is_later ≡ runs_later outer →
        result ≡ runs_later (path_in frame.now field outer) }
{
    delays(frame.node, field) || frame.spot.is_later
}

// Whether what stands in this field of such a node runs later: parameters and bodies of functions, and what a
// field of an instance starts with (ECMA-262, 15 and 15.7.14).
fn delays<'a>(node: Node<'a>, field: u8) -> bool
    ensures { result ≡ Known.delays (head_of node.entry) field }
{
    match node {
        Node::Function { .. } => true,
        Node::Constructor => true,
        Node::ArrowExpr { .. } => true,
        Node::GetterProp => field != 0,
        Node::SetterProp => field != 0,
        Node::ClassProp { is_static } => !is_static && field == 1,
        Node::PrivateProp { is_static } => !is_static && field == 1,
        _ => false,
    }
}

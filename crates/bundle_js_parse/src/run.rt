//! The loop.

ghost use Rattle.std.specs.Prelude.{◌≤◌, ⊤, length, MatchResult};

use crate::step::step;
use bundle_js_machine::context::Context;
use bundle_js_machine::machine::Machine;
use bundle_js_machine::state::State;
use bundle_js_record::kind::Kind;
use bundle_js_record::reader::{Reader, Stop};
use bundle_js_record::record::Rec;
use bundle_js_scan::gap::Comment;
use bundle_js_scan::lexer::Goal;
use bundle_js_scan::store::Store;
use std::alloc::Global;

/// What was read of a text: the records in post-order, the last one that of the module; the texts of those that
/// hold escapes; and the comments that a bundle keeps, in the order of the text.
#[derive(Drop)]
pub struct Parsed {
    pub records: Vec<Rec>,
    pub store: Store,
    pub comments: Vec<Comment>,
}

// Goes through all states. No token needs more than sixty-four of them.
fn run(machine: &mut Machine<'_>) -> Result<(), Stop> {
    let limit = (machine.reader.lexer.len() as u64 + 2) * 64;
    for _ in 0..limit {
        match machine.states.pop() {
            None => return Ok(()),
            Some(state) => step(machine, state)?,
        }
    }
    Err(Stop::Deep)
}

// A machine at the begin of the text.
fn start<'a>(alloc: Global, text: &'a str, goal: Goal) -> Result<Machine<'a>, Stop> {
    let reader = Reader::new(alloc, text, goal)?;
    let place = reader.place();
    let mut machine = Machine {
        reader,
        states: Vec::new(alloc),
        quasis: Vec::new(alloc),
        context: Context::top(goal),
        goal,
        assignment: 0,
        no_in: false,
    };
    machine.then(State::Statements {
        kind: Kind::Module,
        directives: false,
        place,
    })?;
    Ok(machine)
}

// Where a property stands in an expression that only a pattern may hold: the byte of its equals sign.
fn cover(reader: &Reader<'_>) -> Option<u32> {
    for rec in reader.records.as_slice() {
        if rec.kind == Kind::Cover {
            let key = reader.at(rec.start as usize);
            return Some(reader.lexer.token_behind(key.to).from);
        }
    }
    None
}

/// The records of a text, read as a module of this goal, or why it is none, and the byte at which it stops to be
/// one (ECMA-262, 16.2). Nests of any depth are read; what is refused only by names, labels and regular
/// expressions is not judged here.
pub fn parse(alloc: Global, text: &str, goal: Goal) -> Result<Parsed, (Stop, u32)>
    ensures { MatchResult result (λ _. ⊤) (λ error. error.1 ≤ length text.now) }
{
    let mut machine = match start(alloc, text, goal) {
        Ok(machine) => machine,
        Err(stop) => return Err((stop, 0)),
    };
    if let Err(stop) = run(&mut machine) {
        let (stop, from) = placed(&machine, stop);
        return Err((stop, within(text, from)));
    }
    if let Some(from) = cover(&machine.reader) {
        return Err((Stop::Cover, within(text, from)));
    }
    let Machine { reader, .. } = machine;
    let Reader {
        records,
        store,
        comments,
        ..
    } = reader;
    Ok(Parsed {
        records,
        store,
        comments,
    })
}

// Why reading stopped, and where what is refused begins: where the reader says, else at the token. Behind an
// `await` that is a name here it is the `await` that is no operator.
fn placed(machine: &Machine<'_>, stop: Stop) -> (Stop, u32) {
    let lexer = &machine.reader.lexer;
    let name = machine.context.await_name;
    match machine.reader.refused {
        Some(from) => (stop, from),
        None => if stop == Stop::Unexpected
            && name > 0
            && lexer.before() == name.saturating_add(4)
        {
            (Stop::Await, name - 1)
        } else {
            (stop, lexer.token().from)
        },
    }
}

// A byte of the text, its first where there is no such byte.
fn within(text: &str, at: u32) -> u32
    ensures { result ≤ length text.now }
{
    if at as usize <= text.len() { at } else { 0 }
}

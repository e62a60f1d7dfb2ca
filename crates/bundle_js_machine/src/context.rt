//! What the goal and the functions around a token allow.

use bundle_js_scan::lexer::Goal;

/// What the goal and the functions around a token allow (ECMA-262, the parameters `Yield`, `Await` and `Return`
/// of the grammar, and the early errors of 13.3.5, 13.3.7, 15.7.1 and 16.2.1.1).
#[derive(Clone, Copy)]
pub struct Context {
    /// Whether `await` is an operator.
    pub awaits: bool,
    /// Whether `await` is no name.
    pub reserves_await: bool,
    /// Whether `yield` is an operator. It is never a name.
    pub yields: bool,
    /// Whether a `return` may stand here.
    pub returns: bool,
    /// Whether `new.target` may stand here.
    pub has_target: bool,
    /// Whether a property of `super` may stand here.
    pub has_super: bool,
    /// Whether `super` may be called here.
    pub calls_super: bool,
    /// Whether `arguments` may stand here.
    pub has_arguments: bool,
    /// Behind which byte the last `yield` or `await` of the function began that is an operator; 0 for none.
    pub paused: u32,
    /// Behind which byte the last `await` of the function began that is a name; 0 for none.
    pub await_name: u32,
}

/// What a function is, for what may stand in it.
#[derive(Clone, Copy, PartialEq, Eq)]
pub enum Home {
    /// A function that belongs to no object.
    Plain,
    /// A method of an object or a class.
    Method,
    /// The constructor of a class that extends another.
    Derived,
}

impl Context {
    /// Outside all functions. A CommonJS module is the body of a function.
    pub fn top(goal: Goal) -> Context {
        let is_module = goal == Goal::Module;
        Context {
            awaits: is_module,
            reserves_await: is_module,
            yields: false,
            returns: !is_module,
            has_target: !is_module,
            has_super: false,
            calls_super: false,
            has_arguments: true,
            paused: 0,
            await_name: 0,
        }
    }

    /// Whether `await` is no name in a function.
    pub fn await_in_function(goal: Goal, is_async: bool) -> bool {
        is_async || goal == Goal::Module
    }

    /// In the parameters of a function, where neither `yield` nor `await` is an operator.
    pub fn parameters(goal: Goal, home: Home, is_async: bool) -> Context {
        Context {
            awaits: false,
            reserves_await: Context::await_in_function(goal, is_async),
            yields: false,
            returns: true,
            has_target: true,
            has_super: home != Home::Plain,
            calls_super: home == Home::Derived,
            has_arguments: true,
            paused: 0,
            await_name: 0,
        }
    }

    /// In the body of the function whose parameters these are.
    pub fn body(self, is_generator: bool, is_async: bool) -> Context {
        Context {
            awaits: is_async,
            yields: is_generator,
            ..self
        }
    }

    /// In the body of an arrow function that stands here.
    pub fn arrow(self, goal: Goal, is_async: bool) -> Context {
        Context {
            awaits: is_async,
            reserves_await: Context::await_in_function(goal, is_async),
            yields: false,
            returns: true,
            ..self
        }
    }

    /// In the value of a field of a class.
    pub fn initializer(goal: Goal) -> Context {
        Context {
            returns: false,
            has_arguments: false,
            ..Context::parameters(goal, Home::Method, false)
        }
    }

    /// In a static block of a class.
    pub fn static_block() -> Context {
        Context {
            returns: false,
            has_arguments: false,
            ..Context::parameters(Goal::Module, Home::Method, false)
        }
    }
}

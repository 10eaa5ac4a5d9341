//! The laws. Each function does nothing, and its contract is the law.
ghost use Rattle.wasm_laws_sound.specs.Laws.{TreeIsTyped, PlainIsTyped, SpelledAreWhole, FunctionsAreTyped, ReductsAreTyped, OutcomesAreTyped, HostCallsAreTyped, PlacesAreSeen, SessionsGoOn, PlacesAreTyped};

/// The code of a valid body has a tree, and the tree is typed.
pub fn code_is_typed()
    ensures { TreeIsTyped }
{}

/// A plain instruction never wants an operand where those that it takes are there.
pub fn plain_instructions_go_on()
    ensures { PlainIsTyped }
{}

/// A valid module that bytes spell is whole; and in a whole module each function that has a type
/// is there, and its body is typed.
pub fn functions_are_typed()
    ensures whole { SpelledAreWhole }
    ensures typed { FunctionsAreTyped }
{}

/// A typed configuration is never stuck: it has a next reduction or an end, and stays typed.
pub fn reductions_go_on()
    ensures one { ReductsAreTyped }
    ensures many { OutcomesAreTyped }
{}

/// A call of the host is never stuck, and comes back with values of its results.
pub fn host_calls_go_on()
    ensures { HostCallsAreTyped }
{}

/// What is seen of a session is what is seen of the place where it stands; and there a session of
/// a valid module with a script that fits it has ended or has a next reduction, of a typed
/// configuration.
pub fn sessions_go_on()
    ensures seen { PlacesAreSeen }
    ensures go_on { SessionsGoOn }
    ensures typed { PlacesAreTyped }
{}

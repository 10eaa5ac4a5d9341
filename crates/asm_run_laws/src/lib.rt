//! What the flat code of asm.js does is what asm.js means, at each budget.
#![tactic(auto)]

ghost use Rattle.asm_run_laws.specs.Laws.{BinaryWords, LinkWords, SameWord, ElementsRead, ElementsWritten, ExpressionsDo, StatementsDo, CallsDo, HostCallsDo, SessionsDo};

/// Operators on words give the words of what asm.js computes of the values.
pub fn operators()
    ensures binary { BinaryWords }
    ensures links { LinkWords }
    ensures same { SameWord }
{}

/// Elements of views are read and written at indices that are unsigned words.
pub fn element_accesses()
    ensures read { ElementsRead }
    ensures written { ElementsWritten }
{}

/// Expressions, statements and calls of functions of an accepted module do by the module's code what they mean, with each number of
/// units, and so do calls of the host.
pub fn code_of_functions()
    ensures expressions { ExpressionsDo }
    ensures statements { StatementsDo }
    ensures calls { CallsDo }
    ensures host_calls { HostCallsDo }
{}

/// Sessions of an accepted module by its code, with each script that fits and each budget, show what the meaning says.
pub fn flat_sessions()
    ensures { SessionsDo }
{}

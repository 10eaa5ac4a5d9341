//! Laws of the machine. Each function does nothing, and its contract is the law.
ghost use Rattle.wasm_laws_machine.specs.Laws.{HostHasValues};

/// A machine that is back at the host has come to the values of its operand stack.
pub fn back_at_the_host()
    ensures { HostHasValues }
{}

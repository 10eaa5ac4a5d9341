//! Of the module that a module of asm.js is translated to: each instruction has an opcode in the binary format, and names are UTF-8.

ghost use Rattle.asm2wasm_laws_writable.specs.OpcodesLaws.{ExpressionsHaveOpcodes, StatementsHaveOpcodes, FunctionsHaveOpcodes, FirstValuesHaveOpcodes, PropertiesAreUtf8};

/// Each instruction of a body has an opcode, and so has the first value of a variable.
pub fn opcodes()
    ensures expressions { ExpressionsHaveOpcodes }
    ensures statements { StatementsHaveOpcodes }
    ensures functions { FunctionsHaveOpcodes }
    ensures globals { FirstValuesHaveOpcodes }
{}

/// Names and members of a text are UTF-8.
pub fn names()
    ensures { PropertiesAreUtf8 }
{}

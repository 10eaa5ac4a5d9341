//! From WebAssembly to asm.js: where a session begins, which store its place stands for.

ghost use Rattle.wasm2js_laws_simulation.specs.InstancesLaws.{GlobalsBegin, StoresAreHeld};

/// The globals have their first values, and after the segments the place stands for the store after instantiation.
pub fn stores()
    ensures globals { GlobalsBegin }
    ensures held { StoresAreHeld }
{
    wasm2js_lang::masked_tables();
}

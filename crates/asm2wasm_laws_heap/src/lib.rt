//! A heap of asm.js at the front of a memory of WebAssembly: guarded loads and stores, and byte writes.
#![tactic(auto)]

ghost use Rattle.asm2wasm_laws_heap.specs.Guards.{StoresAreGuarded, LoadsAreGuarded, GuardedBytesAreThere, WritesStayInFront, WritesHaveTwoParts};

/// A guarded access of the memory is the access of the heap, at each index, where its element begins.
pub fn guarded_accesses()
    ensures stores { StoresAreGuarded }
    ensures loads { LoadsAreGuarded }
    ensures there { GuardedBytesAreThere }
{}

/// Byte writes inside the heap leave what is past it as it is. Those that reach past it are writes of both parts, each by itself.
pub fn byte_writes()
    ensures in_front { WritesStayInFront }
    ensures anywhere { WritesHaveTwoParts }
{}

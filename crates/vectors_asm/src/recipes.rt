//! The text that `gen` measures, written from its rule, and its translations, by the whole program.
use crate::program::over;
use crate::rows::holds;
use std::alloc::{AllocError, Global};

const HEADING: &str =
    "function gen(stdlib,foreign,heap){\"use asm\";var H=new stdlib.Int32Array(heap);\n";

/// The text of so many functions. The first gives its argument, and each other one adds its number to what the one before it
/// gives, and stores the sum at its number.
fn text_of(alloc: Global, functions: u32) -> Result<String, AllocError> {
    let mut text = String::from_str(alloc, HEADING)?;
    text.push_str("function f0(x){x=x|0;return x|0;}\n")?;
    let mut last = 0;
    for number in 1..functions {
        let line = format!(in alloc;
            "function f{number}(x){{x=x|0;x=(f{last}(x)|0)+{number}|0;H[{number}]=x;return x|0;}}\n"
        )?;
        text.push_str(line.as_str())?;
        last = number;
    }
    let end = format!(in alloc; "return f{last};}}\n")?;
    text.push_str(end.as_str())?;
    Ok(text)
}

/// The command, the module `m`, the script, and what its output begins with.
fn begins(alloc: Global, command: &str, module: &[u8], script: &[u8], front: &[u8]) -> bool {
    let words = [command, "--steps", "1000000000", "m", "s"];
    let told = over(alloc, &words, &[], module, script);
    told.status == 0 && told.written.starts_with(front)
}

/// The text and its translations give the sum of 1 to 199 for 0. They have these lengths, of which those of the translations are at
/// most ten and a hundred times that of the text.
fn are_run(alloc: Global, text: &[u8]) -> bool {
    let module = over(alloc, &["asm2wasm", "m"], &[], text, b"").written;
    let back = over(alloc, &["wasm2js", "m"], &[], &module, b"").written;
    let called = b"call f199 0";
    let sum = b"result 19900\n";
    text.len() == 12_628
        && module.len() == 8_412
        && back.len() == 26_427
        && begins(alloc, "run-asm", text, called, sum)
        && begins(alloc, "run-wasm", &module, called, sum)
        && begins(
            alloc,
            "run-asm",
            &back,
            b"call $init\ncall f199 0",
            b"returned\nresult 19900\n",
        )
}

#[test]
fn the_text_of_200_functions_is_translated_and_run(rt: HostRuntime) {
    match text_of(rt.alloc(), 200) {
        Ok(text) => holds(&rt, 0, are_run(rt.alloc(), text.as_bytes())),
        Err(_) => holds(&rt, 1, false),
    }
    let told = over(rt.alloc(), &["gen", "200"], &[], b"", b"");
    let lengths = b"functions 200\nasm 12628\nwasm 8412\njs 26427\n";
    holds(&rt, 2, told.is(0, lengths));
}

#[test]
fn the_text_of_three_functions_is_measured(rt: HostRuntime) {
    let told = over(rt.alloc(), &["gen", "3"], &[], b"", b"");
    let front = b"functions 3\nasm 239\n".as_slice();
    holds(&rt, 0, told.status == 0 && told.written.starts_with(front));
    match text_of(rt.alloc(), 3) {
        Ok(text) => holds(&rt, 1, text.len() == 239),
        Err(_) => holds(&rt, 2, false),
    }
}

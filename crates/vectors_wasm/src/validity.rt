//! Modules that are valid or not, and which of them are run.
use crate::rows::holds;
use crate::verdicts::fault_of;
use cmd_check_wasm::{CheckFault, check_bytes};
use cmd_run_wasm::{RunFault, runnable_module};
use std::alloc::Global;
use wasm_validate::{Beyond, Measures, Outside, Rule, Section};

const NOTHING: Measures = Measures {
    levels: 0,
    slots: 0,
    call_types: 0,
    mixed: None,
    mul_div: None,
};

// A memory of 4,097 pages, and nothing else.
#[test]
fn takes_a_module(rt: HostRuntime) {
    match check_bytes(rt.alloc(), b"\0asm\x01\0\0\0\x05\x04\x01\0\x81\x20") {
        Ok(valid) => {
            holds(&rt, 0, valid.func_type(0).is_none());
            holds(&rt, 1, valid.measures() == NOTHING);
        }
        Err(_) => holds(&rt, 2, false),
    }
}

// A module, and why it isn't run. Its imports have empty names.
static ROWS: [(&[u8], Option<Outside>); 4] = [
    // a constant, a global that may change, and a table are imported, and there are 4,097 pages
    (
        b"\0asm\x01\0\0\0\x02\x11\x03\0\0\x03\x7f\0\0\0\x03\x7f\x01\0\0\x01\x70\0\0\x05\x04\x01\0\x81\x20",
        Some(Outside {
            row: Beyond::ImportedTable,
            value: 2,
        }),
    ),
    // a constant and a global that may change, and 4,097 pages
    (
        b"\0asm\x01\0\0\0\x02\x0b\x02\0\0\x03\x7f\0\0\0\x03\x7f\x01\x05\x04\x01\0\x81\x20",
        Some(Outside {
            row: Beyond::MutableImport,
            value: 1,
        }),
    ),
    // a constant and 4,097 pages
    (
        b"\0asm\x01\0\0\0\x02\x06\x01\0\0\x03\x7f\0\x05\x04\x01\0\x81\x20",
        Some(Outside {
            row: Beyond::MemoryLarge,
            value: 4097,
        }),
    ),
    // a constant and 4,096 pages
    (
        b"\0asm\x01\0\0\0\x02\x06\x01\0\0\x03\x7f\0\x05\x04\x01\0\x80\x20",
        None,
    ),
];

fn is_told(alloc: Global, bytes: &[u8], outside: Option<Outside>) -> bool {
    match (runnable_module(alloc, bytes), outside) {
        (Err(RunFault::Outside(told)), Some(outside)) => told == outside,
        (Ok(_), None) => true,
        _ => false,
    }
}

#[test]
fn the_first_row_that_holds_is_told(rt: HostRuntime) {
    for (number, (bytes, outside)) in ROWS.iter().enumerate() {
        holds(&rt, number, is_told(rt.alloc(), bytes, *outside));
    }
}

const REFUSED: CheckFault = CheckFault::Invalid {
    rule: Rule::Size,
    section: Section::Memories,
    index: 0,
    instruction: 0,
};

// A memory of 65,537 pages.
#[test]
fn refuses_a_memory(rt: HostRuntime) {
    let fault = fault_of(rt.alloc(), b"\0asm\x01\0\0\0\x05\x05\x01\0\x81\x80\x04");
    holds(&rt, 0, fault == Some(REFUSED));
}

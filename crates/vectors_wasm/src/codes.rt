//! Worked rows.
use crate::rows::holds;
use sem_words::List;
use wasm_tree::{Code, Instr};

// local.get 0, br_table [0] 0, end
const BYTES: &[u8] = &[0x20, 0x00, 0x0e, 0x01, 0x00, 0x00, 0x0b];

/// The code is three instructions, a br_table and an end behind the first.
fn is_code(list: &List<Instr>) -> bool {
    list.len() == 3
        && matches!(list.get(1), Some(Instr::BrTable(_, 0)))
        && matches!(list.get(2), Some(Instr::End))
}

#[test]
fn lent_and_owned_code(rt: HostRuntime) {
    let Ok(list) = Code::Lent(BYTES).instrs(rt.alloc()) else {
        return holds(&rt, 2, false);
    };
    holds(&rt, 0, is_code(&list));
    match Code::Own(list).instrs(rt.alloc()) {
        Ok(again) => holds(&rt, 1, is_code(&again)),
        Err(_) => holds(&rt, 3, false),
    }
}

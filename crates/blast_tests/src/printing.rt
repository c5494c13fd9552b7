//! What is printed of a formula.
use cnfx_reader::put_formula;
use cx_base::Formula;
use cx_desk::{MemDesk, Port, Rooms};
use std::alloc::{AllocError, Global};

/// What a desk's proof port gains of a formula.
pub(crate) fn printed(alloc: Global, formula: &Formula) -> Result<Vec<u8>, AllocError> {
    let rooms = Rooms {
        answer: 0,
        proof: 4096,
        message: 0,
    };
    let mut desk = MemDesk::make(alloc, Vec::new(alloc), rooms, 5, Vec::new(alloc))?;
    let _done = put_formula(&mut desk, Port::Proof, formula).is_ok();
    desk.written(Port::Proof).to_vec(alloc)
}

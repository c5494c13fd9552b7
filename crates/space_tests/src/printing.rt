//! What is printed of a space.
use cx_base::Formula;
use cx_desk::{MemDesk, Port, Rooms};
use gf2_space::{Space, put_space, space};
use std::alloc::{AllocError, Global};

/// What an answer port of this room gains of a space.
pub(crate) fn printed(alloc: Global, space: &Space, room: usize) -> Result<Vec<u8>, AllocError> {
    let rooms = Rooms {
        answer: room,
        proof: 0,
        message: 0,
    };
    let mut desk = MemDesk::make(alloc, Vec::new(alloc), rooms, 1000, Vec::new(alloc))?;
    let _done = put_space(&mut desk, space).is_ok();
    desk.written(Port::Answer).to_vec(alloc)
}

/// What it gains of the space of a formula's parities, or that these have no solution.
pub(crate) fn printed_of(
    alloc: Global,
    formula: &Formula,
    room: usize,
) -> Result<Vec<u8>, AllocError> {
    match &space(alloc, formula)? {
        Some(space) => printed(alloc, space, room),
        None => b"none\n".to_vec(alloc),
    }
}

//! A space as text.
ghost use Rattle.std.specs.Prelude.{◌≡◌, ◌+◌, ◌<◌, ◌++◌, [], codes, decimal, flat_map, length, if◌then◌else◌, slice_index_or};
ghost use Rattle.std.specs.List.{enumerate_from};
ghost use Rattle.cx_desk.specs.Calls.{PutsAll};
ghost use Rattle.cx_desk.specs.declared.desk.Port.TheVariants.{Answer};
ghost use Rattle.model_out.specs.Waiting.{Adds};
ghost use Rattle.gf2_space.specs.AffineText.{affine_text, listed_variable, point_literal, vector_text};

use crate::affine::Space;
use arrayvec::ArrayVec;
use cx_base::Var;
use cx_desk::{Desk, Failed, Port, put_all};
use itoa::Buffer;

/// How many bytes wait at most, so that the desk is not called for each literal.
const ROOM: usize = 4096;

/// Adds a piece to the bytes that wait, and writes them all where there is no room for it.
fn add<D: Desk>(desk: &mut D, waiting: &mut ArrayVec<u8, ROOM>, piece: &[u8]) -> Result<(), Failed>
    ensures { Adds piece.now (D.outside desk.old) waiting.old.items result (D.outside desk.new) waiting.new.items }
{
    match waiting.try_extend_from_slice(piece) {
        Ok(()) => Ok(()),
        Err(_) => {
            put_all(desk, Port::Answer, waiting.as_slice())?;
            waiting.clear();
            put_all(desk, Port::Answer, piece)
        }
    }
}

/// Adds a number to a text.
fn add_number<D: Desk>(
    desk: &mut D,
    waiting: &mut ArrayVec<u8, ROOM>,
    before: &[u8],
    number: u64,
) -> Result<(), Failed>
    ensures { Adds (before.now ++ decimal number) (D.outside desk.old) waiting.old.items result (D.outside desk.new) waiting.new.items }
{
    let mut buffer = Buffer::new();
    let text = buffer.format(number);
    add(desk, waiting, before)?;
    add(desk, waiting, text.as_bytes())
}

/// What comes before the number of a variable that has the value.
fn sign_of(value: bool) -> &'static [u8]
    ensures { result.now ≡ codes " " ++ (if value then [] else codes "-") }
{
    if value { b" " } else { b" -" }
}

/// Adds the literals of the point.
fn add_point<D: Desk>(
    desk: &mut D,
    waiting: &mut ArrayVec<u8, ROOM>,
    space: &Space,
) -> Result<(), Failed>
    ensures { Adds (flat_map point_literal (enumerate_from 0 space.now.point)) (D.outside desk.old) waiting.old.items result (D.outside desk.new) waiting.new.items }
{
    // `dimension` tells the proof that the point has a value for each variable.
    let _dimension = space.dimension();
    for x in 0..space.vars() {
        let value = space.point(Var::new(x + 1));
        add_number(desk, waiting, sign_of(value), u64::from(x) + 1)?;
    }
    Ok(())
}

/// Adds variables, each after a space.
fn add_variables<D: Desk>(
    desk: &mut D,
    waiting: &mut ArrayVec<u8, ROOM>,
    variables: &[u32],
) -> Result<(), Failed>
    ensures { Adds (flat_map listed_variable variables.now) (D.outside desk.old) waiting.old.items result (D.outside desk.new) waiting.new.items }
{
    for place in 0..variables.len() {
        add_number(desk, waiting, b" ", u64::from(variables[place]))?;
    }
    Ok(())
}

/// Adds the line of the vector at a place, from 0.
fn add_vector<D: Desk>(
    desk: &mut D,
    waiting: &mut ArrayVec<u8, ROOM>,
    space: &Space,
    place: u64,
) -> Result<(), Failed>
    requires { place < length space.now.free }
    ensures { Adds (vector_text (slice_index_or space.now.vectors place [])) (D.outside desk.old) waiting.old.items result (D.outside desk.new) waiting.new.items }
{
    // `dimension` tells the proof that the place has a next one.
    let _dimension = space.dimension();
    add(desk, waiting, b"b")?;
    add_variables(desk, waiting, space.below(place + 1))?;
    add_number(
        desk,
        waiting,
        b" ",
        u64::from(space.free(place + 1).number()),
    )?;
    add(desk, waiting, b" 0\n")
}

/// Adds the lines of the vectors.
fn add_vectors<D: Desk>(
    desk: &mut D,
    waiting: &mut ArrayVec<u8, ROOM>,
    space: &Space,
) -> Result<(), Failed>
    ensures { Adds (flat_map vector_text space.now.vectors) (D.outside desk.old) waiting.old.items result (D.outside desk.new) waiting.new.items }
{
    for place in 0..space.dimension() {
        add_vector(desk, waiting, space, place)?;
    }
    Ok(())
}

/// Adds all of the text.
fn add_space<D: Desk>(
    desk: &mut D,
    waiting: &mut ArrayVec<u8, ROOM>,
    space: &Space,
) -> Result<(), Failed>
    ensures { Adds (affine_text space.now) (D.outside desk.old) waiting.old.items result (D.outside desk.new) waiting.new.items }
{
    add_number(desk, waiting, b"s AFFINE ", space.dimension())?;
    add(desk, waiting, b"\nt")?;
    add_point(desk, waiting, space)?;
    add(desk, waiting, b" 0\n")?;
    add_vectors(desk, waiting, space)
}

/// Appends the text of a space to the answer port: an `s` line with the dimension, a `t` line with the point, and a
/// `b` line for each vector.
///
/// It fails only where the desk counted a fault of the port; then the port gained a prefix of the text. It takes no
/// memory.
pub fn put_space<D: Desk>(desk: &mut D, space: &Space) -> Result<(), Failed>
    ensures { PutsAll Answer (affine_text space.now) (D.outside desk.old) result (D.outside desk.new) }
{
    let mut waiting = ArrayVec::new();
    add_space(desk, &mut waiting, space)?;
    put_all(desk, Port::Answer, waiting.as_slice())
}

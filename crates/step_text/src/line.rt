//! The parts of a step's line.
ghost use Rattle.std.specs.Prelude.{◌≡◌};
ghost use Rattle.step_text.specs.Tails.{tail_len};

/// The head of a step's line: a text, an id and literals.
#[derive(Clone, Copy, Drop)]
pub struct LineHead<'l> {
    /// What comes before the id.
    pub before: &'l [u8],
    pub id: u64,
    pub literals: &'l [i64],
}

impl<'l> LineHead<'l> {
    /// The head with these.
    #[inline(always)]
    pub fn new(before: &'l [u8], id: u64, literals: &'l [i64]) -> LineHead<'l>
        ensures before { result.before.now ≡ before.now }
        ensures id { result.id ≡ id }
        ensures literals { result.literals.now ≡ literals.now }
    {
        LineHead {
            before,
            id,
            literals,
        }
    }
}

/// What comes after the head of a step's line.
#[derive(Clone, Copy, Drop)]
pub enum LineTail<'l> {
    Nothing,
    Hints(&'l [i64]),
    /// The letter l and hints.
    MarkedHints(&'l [i64]),
    /// The letter l and ids.
    MarkedIds(&'l [u64]),
}

impl LineTail<'_> {
    /// How many hints or ids it has.
    #[inline(always)]
    pub(crate) fn count(&self) -> usize
        ensures { result ≡ tail_len self.now }
    {
        match self {
            LineTail::Nothing => 0,
            LineTail::Hints(hints) | LineTail::MarkedHints(hints) => hints.len(),
            LineTail::MarkedIds(ids) => ids.len(),
        }
    }
}

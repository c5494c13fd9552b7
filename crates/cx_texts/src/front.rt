//! The first token of some bytes, by what it says.
ghost use Rattle.std.specs.Prelude.{false, ◌≡◌, ◌<◌, ℕ, List, length, slice_index};
ghost use Rattle.cx_texts.specs.Front.{IsFront};
ghost use Rattle.cx_texts.specs.Tokens.{is_blank};

/// What a token at the beginning of some bytes says, how many of them it takes, and whether a blank is known to follow.
#[derive(Clone, Copy, Drop)]
pub struct Front<T> {
    pub token: T,
    pub len: usize,
    pub blank_follows: bool,
}

/// What a token says, and the reader of it.
pub trait FrontToken: Copy + Drop {
    // it is said of these bytes
    ghost said: { Self → List ℕ → Type 0 };

    /// The first token.
    fn read(text: &[u8]) -> Front<Self>
        requires some { 0 < length text.now }
        requires begins { is_blank (slice_index text.now 0) ≡ false }
        ensures { IsFront said text.now result };
}

/// What a token says, and the place of its first byte.
#[derive(Clone, Copy, Drop)]
pub struct SaidAt<T> {
    pub place: u64,
    pub token: T,
}

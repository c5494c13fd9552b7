//! The words of a row from the first to the last that is not zero.
ghost use Rattle.std.specs.Prelude.{◌≡◌, ℕ, ◌<◌, ◌≤◌, length, slice_index};
ghost use Rattle.gf2_rows.specs.Tables.{IsZeroOutside};

/// The place of the first word that is not zero, and the place after the last one; all of fewer than eight words.
pub(crate) fn span_of(words: &[u64]) -> (usize, usize)
    ensures { IsZeroOutside words.now result.0 result.1 }
{
    // Few words are added sooner than they are looked at.
    if words.len() < 8 {
        return (0, words.len());
    }
    let low = first_of(words);
    (low, end_of(words, low))
}

/// The place of the first word that is not zero, or the number of words.
fn first_of(words: &[u64]) -> usize
    ensures within { result ≤ length words.now }
    ensures before { (i : ℕ) → i < result → slice_index words.now i ≡ 0 }
{
    for (i, word) in words.iter().enumerate() {
        if *word != 0 {
            return i;
        }
    }
    words.len()
}

/// The place after the last word from `low` on that is not zero, or `low`.
fn end_of(words: &[u64], low: usize) -> usize
    requires { low ≤ length words.now }
    ensures order { low ≤ result }
    ensures within { result ≤ length words.now }
    ensures after { (i : ℕ) → result ≤ i → slice_index words.now i ≡ 0 }
{
    let mut end = words.len();
    while end > low {
        let word = words[end - 1];
        if word != 0 {
            return end;
        }
        end -= 1;
    }
    low
}

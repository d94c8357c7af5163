//! Laws of words. Each function does no work: its contract is a theorem about every number.

ghost use Rattle.std.specs.Prelude.{◌≡◌, ◌≤◌, ◌<◌, ◌^◌, ℕ};
ghost use Rattle.numbered_words.specs.Numbered.{fill_from_words, state_after, word_at};

/// Of the first 2^64 words of a number, no two are the same.
pub fn no_word_comes_twice()
    ensures { (number i j : ℕ) → i < 2 ^ 64 → j < 2 ^ 64 → word_at number i ≡ word_at number j → i ≡ j }
{}

/// Eight bytes or more that are drawn behind some words of a number are drawn behind no other of its words, up to 2^64.
pub fn no_bytes_come_twice()
    ensures { (number n i j : ℕ) → 8 ≤ n → i < 2 ^ 64 → j < 2 ^ 64
        → (fill_from_words n (state_after i number)).0 ≡ (fill_from_words n (state_after j number)).0 → i ≡ j }
{}

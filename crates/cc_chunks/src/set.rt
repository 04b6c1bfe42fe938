// Sets of numbers.

ghost use Rattle.std.specs.Prelude.{◌≡◌, ◌≢◌, ◌==◌, ◌||◌, true, ℕ, ◌%◌, ◌^◌, ◌+◌, ◌*◌, ◌<◌, ◌≤◌, IfOk, IsTrue, vec_len, false, slice_index};
ghost use Rattle.cc_chunks.specs.Sets.{has, has_bit};
ghost use Rattle.cc_chunks.specs.Graph.{CountBelow};

use std::alloc::{AllocError, Global};

/// A set of numbers, a bit each.
#[derive(Drop)]
pub(crate) struct NumberSet {
    pub(crate) words: Vec<u64>,
}

impl NumberSet {
    /// The empty set, with room for the numbers below `size`.
    pub(crate) fn with_room(alloc: Global, size: usize) -> Result<NumberSet, AllocError>
        ensures room { IfOk result (λ set. size ≤ 64 * vec_len set.words) }
        ensures tight { IfOk result (λ set. 64 * vec_len set.words < size + 64) }
        ensures empty { IfOk result (λ set. (k : ℕ) → has set.words.items k ≡ false) }
    {
        let words = vec![in alloc; 0u64; size.div_ceil(64)]?;
        Ok(NumberSet { words })
    }

    /// The 64 bits of the numbers from 64 times this one on.
    pub(crate) fn word(&self, at: usize) -> u64
        ensures { result ≡ slice_index self.now.words.items at }
    {
        self.words.get(at).copied().unwrap_or(0)
    }

    #[tactic(auto, unfolding(crate::specs::Sets::has))]
    pub(crate) fn contains(&self, k: usize) -> bool
        ensures { result ≡ has self.now.words.items k }
    {
        has_bit(self.word(k / 64), k)
    }

    pub(crate) fn insert(&mut self, k: usize)
        requires { k < 64 * vec_len self.old.words }
        ensures room { vec_len self.new.words ≡ vec_len self.old.words }
        ensures numbers { (j : ℕ) → has self.new.words.items j
            ≡ ((j == k) || has self.old.words.items j) }
    {
        let word = with_bit(self.words[k / 64], k);
        self.words[k / 64] = word;
    }

    /// Adds the numbers of another set that there is room for.
    pub(crate) fn unite(&mut self, other: &NumberSet)
        ensures room { vec_len self.new.words ≡ vec_len self.old.words }
        ensures numbers { (j : ℕ) → j < 64 * vec_len self.old.words
            → has self.new.words.items j ≡ (has self.old.words.items j || has other.now.words.items j) }
    {
        for (i, word) in self.words.iter_mut().enumerate() {
            *word |= other.word(i);
        }
    }

    /// How many numbers it has.
    pub(crate) fn count(&self) -> usize
        requires { 64 * vec_len self.now.words < 2 ^ 64 }
        ensures { CountBelow (λ k. IsTrue (has self.now.words.items k))
            (64 * vec_len self.now.words) result }
    {
        let mut count = 0;
        for word in self.words.as_slice() {
            count += word.count_ones() as usize;
        }
        count
    }
}

/// Whether the word has the bit of a number.
#[tactic(auto, using(crate::proofs::SetLaws::bit_laws))]
pub(crate) fn has_bit(word: u64, k: usize) -> bool
    ensures { result ≡ has_bit word k }
{
    (word >> (k % 64)) & 1 == 1
}

/// The word with the bit of a number.
#[tactic(auto, using(crate::proofs::SetLaws::bit_laws))]
pub(crate) fn with_bit(word: u64, k: usize) -> u64
    ensures same { has_bit result k ≡ true }
    ensures others { (j : ℕ) → j % 64 ≢ k % 64 → has_bit result j ≡ has_bit word j }
{
    word | (1 << (k % 64))
}

//! Ranges of bits in rows of words: how they are cleared, filled, counted and searched.

ghost use Rattle.std.specs.Prelude.{◌≡◌, ℕ, true, false, not, ◌+◌, ◌*◌, ◌<◌, ◌≤◌, ◌^◌, ◌&&◌, ◌||◌, ◌==◌, List, length, MatchOption, ◌↔◌};
ghost use Rattle.std.specs.Int.{bit_at};
ghost use Rattle.rf_domain.specs.Indices.{between, has_bit, IsFirstBit, IsFirstClear, IsLowest, IsPadded, HasBitsWithin, count_below};

// A set of indices as words: index k is bit k % 64 of word k / 64.

/// The bits of the word at place `word` whose indices are from `lo` to `hi`.
fn mask_of(word: u32, lo: u32, hi: u32) -> u64
    requires small { word < 2 ^ 26 }
    requires ordered { lo ≤ hi }
    ensures { (i : ℕ) → i < 64 → (bit_at result i == 1) ≡ between lo hi (64 * word + i) }
{
    let base = 64 * word;
    if hi < base || lo > base + 63 {
        return 0;
    }
    let first = lo.max(base) - base;
    let last = hi.min(base + 63) - base;
    (u64::MAX << first) & (u64::MAX >> (63 - last))
}

/// Clears the bits of the indices from `lo` to `hi`, and answers how many of them were set.
pub fn clear_range(words: &mut [u64], lo: u32, hi: u32) -> u32
    requires ordered { lo ≤ hi }
    requires small { hi < 2 ^ 26 }
    requires room { hi < 64 * length words.old }
    ensures bits { (k : ℕ) → has_bit words.new k ≡ (has_bit words.old k && not (between lo hi k)) }
    ensures removed { result ≡ count_below (λ k. has_bit words.old k && between lo hi k) (hi + 1) }
{
    let mut removed = 0;
    for word in lo / 64..hi / 64 + 1 {
        let old = words[word as usize];
        let mask = mask_of(word, lo, hi);
        removed += (old & mask).count_ones();
        words[word as usize] = old & !mask;
    }
    removed
}

/// The bits of the mask that the word lacks.
fn lacking(word: u64, mask: u64) -> u64
    ensures { (i : ℕ) → i < 64 → (bit_at result i == 1) ≡ ((bit_at mask i == 1) && not (bit_at word i == 1)) }
{
    mask & !word
}

/// Sets the bits of the indices from `lo` to `hi`, and answers how many of them were not set.
pub fn fill_range(words: &mut [u64], lo: u32, hi: u32) -> u32
    requires ordered { lo ≤ hi }
    requires small { hi < 2 ^ 26 }
    requires room { hi < 64 * length words.old }
    ensures bits { (k : ℕ) → has_bit words.new k ≡ (has_bit words.old k || between lo hi k) }
    ensures added { result ≡ count_below (λ k. between lo hi k && not (has_bit words.old k)) (hi + 1) }
{
    let mut added = 0;
    for word in lo / 64..hi / 64 + 1 {
        let old = words[word as usize];
        let mask = mask_of(word, lo, hi);
        added += lacking(old, mask).count_ones();
        words[word as usize] = old | mask;
    }
    added
}

/// The first bit that is set from `from` on.
pub fn next_bit(words: &[u64], from: u32) -> Option<u32>
    requires { length words.now < 2 ^ 26 }
    ensures { MatchOption result ((j : ℕ) → from ≤ j → has_bit words.now j ≡ false) (λ k. IsFirstBit words.now from k) }
{
    let mut k = from;
    while ((k / 64) as usize) < words.len() {
        let rest = words[(k / 64) as usize] >> (k % 64);
        if rest != 0 {
            return Some(k + rest.trailing_zeros());
        }
        k = (k / 64 + 1) * 64;
    }
    None
}

/// The first bit that is not set from `from` on.
pub fn next_clear(words: &[u64], from: u32) -> Option<u32>
    requires { length words.now < 2 ^ 26 }
    ensures { MatchOption result ((j : ℕ) → from ≤ j → j < 64 * length words.now → has_bit words.now j ≡ true) (λ k. IsFirstClear words.now from k) }
{
    let mut k = from;
    while ((k / 64) as usize) < words.len() {
        let rest = !words[(k / 64) as usize] >> (k % 64);
        if rest != 0 {
            return Some(k + rest.trailing_zeros());
        }
        k = (k / 64 + 1) * 64;
    }
    None
}

/// Whether each bit that is set in the words is set in the others, which are as many.
pub fn are_within(words: &[u64], others: &[u64]) -> bool
    requires { length words.now ≡ length others.now }
    ensures { (result ≡ true) ↔ HasBitsWithin words.now others.now }
{
    for i in 0..words.len() {
        if lacking(others[i], words[i]) != 0 {
            return false;
        }
    }
    true
}

/// The lowest bit that is set, or the size, once the bits from `lo` to `hi` are cleared. Before, it was `first`.
pub fn lowest_left(words: &[u64], size: u32, first: u32, lo: u32, hi: u32) -> u32
    requires padded { IsPadded size words.now }
    requires ordered { lo ≤ hi }
    requires in_range { hi < size }
    ensures { (old : List ℕ) → IsLowest size old first → ((k : ℕ) → has_bit words.now k ≡ (has_bit old k && not (between lo hi k))) → IsLowest size words.now result }
{
    if first < lo || first > hi {
        return first;
    }
    match next_bit(words, hi + 1) {
        Some(k) => k,
        None => size,
    }
}

//! Rows of bits, in words of 64.
ghost use Rattle.std.specs.Prelude.{◌≡◌, ◌⊎◌, ℕ, ◌*◌, ◌+◌, ◌/◌, ◌^◌, ◌<◌, ◌≤◌, ◌==◌, ◌||◌, ◌&&◌, length};
ghost use Rattle.std.specs.Prelude.{slice_index, false, not, nat_lt, true, IfOk, IfSome, IfNone};
ghost use Rattle.std.specs.Int.{bit_at};
ghost use Rattle.mrc_bits.specs.Bits.{is_set, is_fresh, fresh_count};
ghost use Rattle.mrc_bits.specs.Bits.{IsNextBit, IsNextFresh, IsNextIn, NoneIn};
ghost use Rattle.mrc_bits.specs.Bits.{AnyFresh, NoneFresh};

/// Whether the bit is set.
pub fn has_bit(words: &[u64], i: usize) -> bool
    ensures { result ≡ is_set words.now i }
{
    match words.get(i / 64) {
        Some(word) => (*word >> (i % 64)) & 1 == 1,
        None => false,
    }
}

/// Sets the bit.
pub fn set_bit(words: &mut [u64], i: usize)
    requires { i < 64 * length words.old }
    ensures { (j : ℕ) → is_set words.new j ≡ (j == i || is_set words.old j) }
{
    words[i / 64] |= 1 << (i % 64);
}

/// Clears the bit.
pub fn clear_bit(words: &mut [u64], i: usize)
    requires { i < 64 * length words.old }
    ensures { (j : ℕ) → is_set words.new j ≡ (not (j == i) && is_set words.old j) }
{
    words[i / 64] &= !(1 << (i % 64));
}

/// The first set bit of a word from this one on.
fn next_in_word(word: u64, from: u32) -> Option<u32>
    requires { from < 64 }
    ensures found { IfSome result (λ i. IsNextIn word from i) }
    ensures none { IfNone result (NoneIn word from) }
{
    let rest = word >> from;
    if rest == 0 {
        None
    } else {
        Some(from + rest.trailing_zeros())
    }
}

/// The first set bit from this one on.
pub fn next_bit(words: &[u64], from: usize) -> Option<usize>
    requires { 64 * length words.now < 2 ^ 64 }
    ensures found { IfSome result (IsNextBit words.now from) }
    ensures none { IfNone result ((j : ℕ) → from ≤ j → is_set words.now j ≡ false) }
{
    let mut place = from / 64;
    let mut start = (from % 64) as u32;
    while place < words.len() {
        if let Some(i) = next_in_word(words[place], start) {
            return Some(64 * place + i as usize);
        }
        place += 1;
        start = 0;
    }
    None
}

/// A word of a row; 0 behind the last.
pub fn word_at(words: &[u64], k: usize) -> u64
    ensures value { result ≡ slice_index words.now k }
    ensures small { result < 2 ^ 64 }
{
    match words.get(k) {
        Some(word) => *word,
        None => 0,
    }
}

/// The bits of a word that both `more` and `mask` have, and that are not set in `words`.
fn fresh_word(words: &[u64], more: &[u64], mask: &[u64], k: usize) -> u64
    requires more { k < length more.now }
    requires mask { k < length mask.now }
    ensures { (i : ℕ) → i < 64 →
        (bit_at result i == 1) ≡ is_fresh words.now more.now mask.now (64 * k + i) }
{
    (more[k] & mask[k]) & !word_at(words, k)
}

/// The fresh bits of the words below `count`, put together in one word.
fn fresh_below(words: &[u64], more: &[u64], mask: &[u64], count: usize) -> u64
    requires words { count ≤ length words.now }
    requires more { count ≤ length more.now }
    requires mask { count ≤ length mask.now }
    ensures none { result ≡ 0 →
        NoneFresh words.now more.now mask.now (64 * count) }
    ensures some { 0 < result →
        AnyFresh words.now more.now mask.now }
{
    let mut fresh = 0;
    for k in 0..count {
        fresh |= (more[k] & mask[k]) & !words[k];
    }
    fresh
}

/// The bits that both `more` and `mask` have in their words from `from` on, where `words` has none,
/// put together in one word.
fn fresh_behind(words: &[u64], more: &[u64], mask: &[u64], from: usize) -> u64
    requires { length words.now ≤ from }
    ensures none { result ≡ 0 →
        (i : ℕ) → 64 * from ≤ i → is_fresh words.now more.now mask.now i ≡ false }
    ensures some { 0 < result →
        AnyFresh words.now more.now mask.now }
{
    let end = if more.len() < mask.len() {
        more.len()
    } else {
        mask.len()
    };
    let mut fresh = 0;
    for k in from..end {
        fresh |= more[k] & mask[k];
    }
    fresh
}

/// Whether there is a bit that both `more` and `mask` have, and that is not set in `words`.
pub fn has_fresh(words: &[u64], more: &[u64], mask: &[u64]) -> bool
    ensures none { result ≡ false →
        (i : ℕ) → is_fresh words.now more.now mask.now i ≡ false }
    ensures some { result ≡ true → AnyFresh words.now more.now mask.now }
{
    let end = least(words.len(), more.len(), mask.len());
    if fresh_below(words, more, mask, end) != 0 {
        return true;
    }
    end == words.len() && fresh_behind(words, more, mask, end) != 0
}

/// The first bit from this one on that both `more` and `mask` have, and that is not set in `words`.
pub fn next_fresh(words: &[u64], more: &[u64], mask: &[u64], from: usize) -> Option<usize>
    requires { 64 * length more.now < 2 ^ 64 }
    ensures found { IfSome result (IsNextFresh words.now more.now mask.now from) }
    ensures none { IfNone result
        ((j : ℕ) → from ≤ j → is_fresh words.now more.now mask.now j ≡ false) }
{
    let mut place = from / 64;
    let mut start = (from % 64) as u32;
    while place < more.len() && place < mask.len() {
        if let Some(i) = next_in_word(fresh_word(words, more, mask, place), start) {
            return Some(64 * place + i as usize);
        }
        place += 1;
        start = 0;
    }
    None
}

/// Sets the bits of a word of the row that both `more` and `mask` have. Answers how many of them
/// were not set.
fn join_word(words: &mut [u64], more: &[u64], mask: &[u64], k: usize) -> usize
    requires words { k < length words.old }
    requires more { k < length more.now }
    requires mask { k < length mask.now }
    ensures bits { (i : ℕ) → is_set words.new i
        ≡ (is_set words.old i || (i / 64 == k && is_fresh words.old more.now mask.now i)) }
    ensures fresh { result ≡ fresh_count words.old more.now mask.now (64 * k) 64 }
{
    let fresh = (more[k] & mask[k]) & !words[k];
    words[k] |= fresh;
    fresh.count_ones() as usize
}

/// The least of three numbers.
fn least(one: usize, other: usize, third: usize) -> usize
    ensures one { result ≤ one }
    ensures other { result ≤ other }
    ensures third { result ≤ third }
    ensures is { (result ≡ one) ⊎ ((result ≡ other) ⊎ (result ≡ third)) }
{
    let two = if one < other { one } else { other };
    if two < third { two } else { third }
}

/// Sets the bits of the row that both `more` and `mask` have. The row gets no longer. Answers how
/// many of them were not set.
pub fn join_bits(words: &mut [u64], more: &[u64], mask: &[u64]) -> usize
    requires { 64 * length words.old < 2 ^ 64 }
    ensures bits { (i : ℕ) → is_set words.new i ≡ (is_set words.old i
        || (nat_lt i (64 * length words.old) && (is_set more.now i && is_set mask.now i))) }
    ensures fresh { result
        ≡ fresh_count words.old more.now mask.now 0 (64 * length words.old) }
{
    let end = least(words.len(), more.len(), mask.len());
    let mut count = 0;
    for k in 0..end {
        count += join_word(words, more, mask, k);
    }
    count
}

/// Sets the bits of the row that both `more` and `mask` have. The row gets no longer.
pub fn or_both(words: &mut [u64], more: &[u64], mask: &[u64])
    ensures { (i : ℕ) → is_set words.new i ≡ (is_set words.old i
        || (nat_lt i (64 * length words.old) && (is_set more.now i && is_set mask.now i))) }
{
    let end = least(words.len(), more.len(), mask.len());
    for k in 0..end {
        words[k] |= more[k] & mask[k];
    }
}

/// Clears the bits of a word of the row that `less` has.
fn clear_word(words: &mut [u64], less: &[u64], k: usize)
    requires { k < length words.old }
    ensures bits { (i : ℕ) → is_set words.new i
        ≡ (is_set words.old i && not (i / 64 == k && is_set less.now i)) }
    ensures len { length words.new ≡ length words.old }
{
    words[k] &= !word_at(less, k);
}

/// Clears the bits of the row that `less` has.
pub fn clear_bits(words: &mut [u64], less: &[u64])
    ensures { (i : ℕ) → is_set words.new i ≡ (is_set words.old i && not (is_set less.now i)) }
{
    for k in 0..words.len() {
        clear_word(words, less, k);
    }
}

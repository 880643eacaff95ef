// Marks as bits, 64 places in a word: a stretch is tested and marked a word at a time.
#![tactic(auto)]

ghost use Rattle.std.specs.Prelude.{◌≡◌, ◌+◌, ◌-◌, ◌*◌, ◌/◌, ◌%◌, ◌≤◌, ◌<◌, length};
ghost use Rattle.check_bit_marks.specs.BitMarks.{part_of, Stretch};

// A word whose n bits from lo on are set.
fn part(lo: usize, n: usize) -> u64
    requires { (0 < n) × (lo + n ≤ 64) }
    ensures { result ≡ part_of lo n }
{
    u64::MAX >> 64 - n << lo
}

// Marks n places from at on, all in one word. False if one is marked already.
fn mark_part(words: &mut [u64], at: usize, n: usize) -> bool
    requires { (0 < n) × (at % 64 + n ≤ 64) × (at / 64 < length words.old) }
    ensures { Stretch result words.old at n words.new }
{
    let mask = part(at % 64, n);
    let word = words[at / 64];
    if word & mask != 0 {
        return false;
    }
    words[at / 64] = word | mask;
    true
}

// Marks the words from first up to end, whole. The words met are joined, so that none is tested by itself.
fn mark_words(words: &mut [u64], first: usize, end: usize) -> bool
    requires { (first ≤ end) × (end ≤ length words.old) }
    ensures { Stretch result words.old (first * 64) ((end - first) * 64) words.new }
{
    let mut seen: u64 = 0;
    for i in first..end {
        seen |= words[i];
        words[i] = u64::MAX;
    }
    seen == 0
}

// Marks the first n places of word i.
fn mark_tail(words: &mut [u64], i: usize, n: usize) -> bool
    requires i_in_bounds { (i ≤ length words.old) × (length words.old < 0x400_0000_0000_0000) }
    requires n_bound { (n < 64) × (i * 64 + n ≤ length words.old * 64) }
    ensures { Stretch result words.old (i * 64) n words.new }
{
    n == 0 || mark_part(words, i * 64, n)
}

// Marks n places from at on, which do not lie in one word: the end of the first word, whole words, the front of the last.
fn mark_long(words: &mut [u64], at: usize, n: usize) -> bool
    requires { (64 < at % 64 + n) × (at + n ≤ length words.old * 64) × (length words.old < 0x400_0000_0000_0000) }
    ensures { Stretch result words.old at n words.new }
{
    let end = (at + n) / 64;
    mark_part(words, at, 64 - at % 64)
        && mark_words(words, at / 64 + 1, end)
        && mark_tail(words, end, (at + n) % 64)
}

// Marks n places from at on. False if one is marked already.
pub fn mark_range(words: &mut [u64], at: usize, n: usize) -> bool
    requires { (at + n ≤ length words.old * 64) × (length words.old < 0x400_0000_0000_0000) }
    ensures { Stretch result words.old at n words.new }
{
    if n == 0 {
        return true;
    }
    if at % 64 + n > 64 {
        return mark_long(words, at, n);
    }
    mark_part(words, at, n)
}

// A path count, and path counts in lent words, one word a count. The Rust has BigUint. Every reading and
// writing of a count is here: other crates know the number that a count is (`count_value`) and the number
// that stands in the words (`count_in`), never the words themselves. Nothing is asked of a caller: a count
// that is not lent reads as 0 and is not stored.
#![tactic(auto, unfolding(crate::specs::PathCounts::count_value, crate::specs::PathCounts::count_in, crate::specs::PathCounts::count_room, crate::specs::Parts::with_count, crate::specs::Parts::sum_answer))]

ghost use Rattle.std.specs.Prelude.{◌≡◌, ◌+◌, ◌-◌, ◌*◌, ◌/◌, ◌%◌, ◌^◌, min, if◌then◌else◌, ◌==◌, nat_le, nat_lt};
ghost use Rattle.path_count.specs.PathCounts.{count_limit, count_value, count_room, count_in};
ghost use Rattle.path_count.specs.Parts.{sum_answer, with_count, AddsCount};

// A path count: a number below the limit, 2^64.
#[derive(Clone, Copy, PartialEq, Eq, PartialOrd, Ord, Drop)]
pub struct PathCount {
    pub word: u64,
}

impl PathCount {
    // The number of two words, the lowest first, or the largest count where it is larger.
    pub fn of_words(low: u64, high: u64) -> PathCount
        ensures { count_value result ≡ min (low + 2 ^ 64 * high) (count_limit - 1) }
    {
        PathCount {
            word: if high == 0 { low } else { u64::MAX },
        }
    }

    // The lowest word of the number.
    pub fn low(self) -> u64
        ensures { result ≡ count_value self % 2 ^ 64 }
    {
        self.word // the only word
    }

    // What is above the lowest word.
    pub fn high(self) -> u64
        ensures { result ≡ count_value self / 2 ^ 64 }
    {
        0
    }

    pub fn equal(self, other: PathCount) -> bool
        ensures { result ≡ (count_value self == count_value other) }
    {
        self == other
    }

    pub fn less(self, other: PathCount) -> bool
        ensures { result ≡ nat_lt (count_value self) (count_value other) }
    {
        self < other
    }

    // The exact sum, unless it is too large for a count.
    pub fn plus(self, other: PathCount) -> Option<PathCount>
        ensures { sum_answer result ≡ (if nat_le count_limit (count_value self + count_value other) then None else Some (count_value self + count_value other)) }
    {
        let word = self.word.checked_add(other.word)?;
        Some(PathCount { word })
    }

    // The difference, 0 where the other number is larger.
    pub fn minus(self, other: PathCount) -> PathCount
        ensures { count_value result ≡ count_value self - count_value other }
    {
        PathCount {
            word: self.word.saturating_sub(other.word),
        }
    }
}

// How many counts so many words hold.
pub fn room(words: usize) -> usize
    ensures { result ≡ count_room words }
{
    words // one word a count
}

// Count i of the words, 0 where it is not lent.
pub fn get(words: &[u64], i: usize) -> PathCount
    ensures { count_value result ≡ count_in words.now i }
{
    PathCount {
        word: words.get(i).copied().unwrap_or(0),
    }
}

// The words with another count i.
pub fn put(words: &mut [u64], i: usize, count: PathCount)
    ensures { words.new ≡ with_count words.old i (count_value count) }
{
    if i < words.len() {
        words[i] = count.word;
    }
}

// Some paths more for count i, unless the sum would be too large, which is told and changes no word.
pub fn add(words: &mut [u64], i: usize, count: PathCount) -> bool
    ensures { AddsCount words.old i (count_value count) words.new result }
{
    let Some(sum) = get(words, i).plus(count) else {
        return true;
    };
    put(words, i, sum);
    false
}

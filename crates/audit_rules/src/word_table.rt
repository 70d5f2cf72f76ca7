//! Tables of words that rise by their bytes.

ghost use Rattle.std.specs.Prelude.{◌≡◌, IsTrue};
ghost use Rattle.std.specs.Ordering.{nat_cmp};
ghost use Rattle.std.specs.Cmp.Lexicographic.{slice_cmp};
ghost use Rattle.audit_rules.specs.Words.{meaning_at, rises, without_zeros, word_of};

use std::cmp::Ordering;

/// A word of at most 16 bytes, and what it means. The word is the bytes without the zero bytes at
/// their end.
#[derive(Clone, Copy, Debug, PartialEq, Eq)]
pub struct WordRow<M> {
    /// The bytes of the word, and zero bytes after them.
    pub word: [u8; 16],
    /// What the word means.
    pub means: M,
}

/// The value of a constant array of `WordRow`, from words of at most 16 bytes and what each means,
/// as `word_table![b"ls" => Verb::Ls, b"show" => Verb::Show]`. A longer word is cut to its first 16
/// bytes.
#[macro_export]
macro_rules! word_table {
    ($($word:literal => $means:expr),* $(,)?) => {
        [$($crate::word_row!($word, $means, 0, 1, 2, 3, 4, 5, 6, 7, 8, 9, 10, 11, 12, 13, 14, 15)),*]
    };
}

/// A row of a table, with zero bytes at the places after its word.
#[macro_export]
macro_rules! word_row {
    ($word:literal, $means:expr, $($at:literal),*) => {
        $crate::WordRow {
            word: [$(if $word.len() > $at { $word[$at] } else { 0 }),*],
            means: $means,
        }
    };
}

/// The bytes without the zero bytes at their end.
fn word_bytes(bytes: &[u8; 16]) -> &[u8]
    ensures { result.now ≡ without_zeros bytes.now }
{
    let mut end = bytes.len();
    while end > 0 && bytes[end - 1] == 0 {
        end -= 1;
    }
    &bytes[..end]
}

/// How the word of a row stands to a word, by their bytes.
fn compare<M>(row: &WordRow<M>, word: &str) -> Ordering
    ensures { result ≡ slice_cmp nat_cmp (word_of row.now) word.now }
{
    word_bytes(&row.word).cmp(word.as_bytes())
}

/// The meaning of the row with this word, or None where no row has it. Words are the same where their
/// bytes are. The words of the table rise strictly by their bytes.
pub fn find<M: Copy, const N: usize>(table: &[WordRow<M>; N], word: &str) -> Option<M>
    requires { IsTrue (rises table.now) }
    ensures { result ≡ meaning_at table.now word.now }
{
    match table.binary_search_by(|row| compare(row, word)) {
        Ok(place) => Some(table[place].means),
        Err(_) => None,
    }
}

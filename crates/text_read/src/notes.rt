// The lines N.
ghost use Rattle.std.specs.Prelude.{◌≡◌, ◌++◌, ◌+◌, ◌*◌, ◌≤◌, length, take, drop};
ghost use Rattle.text_read.specs.Notes.{line_n, notes_of, counted, words_after, Noted, Fitting};
ghost use Rattle.text_digits.specs.Answers.{value_in};

use text_lines::{FLOAT, WORD, line};

// The words of a note: step, len, the kind 0, the bits of pitch and gain; and the place after the line.
// The line has four fields, or stops after pitch and has the gain 0.5.
fn line_n(s: &[u8], at: usize) -> Option<([u32; 5], usize)>
    ensures { value_in s.now result ≡ line_n (drop at s.now) }
{
    let mut whole = [0u32; 4];
    if let Some(next) = line(s, at, b'N', &[WORD, WORD, FLOAT, FLOAT], &mut whole) {
        return Some(([whole[0], whole[1], 0, whole[2], whole[3]], next));
    }
    let mut short = [0u32; 3];
    let last = line(s, at, b'N', &[WORD, WORD, FLOAT], &mut short)?;
    Some(([short[0], short[1], 0, short[2], 0x3f00_0000], last))
}

// The words of note n into their place of `words`.
fn store_note(words: &mut [u32], n: usize, note: &[u32; 5])
    requires { n * 5 + 5 ≤ length words.old }
    ensures { words.new ≡ take (n * 5) words.old ++ (note.now ++ drop (n * 5 + 5) words.old) }
{
    let at = n * 5;
    words[at..at + 5].copy_from_slice(note);
}

// Judges the lines to the end of s, and counts them. The place steps by what was read, a line of any
// length, so that no range gives it.
fn count_notes(s: &[u8], start: usize) -> Option<usize>
    ensures { result ≡ counted (notes_of (drop start s.now)) }
{
    let mut at = start;
    let mut n: usize = 0;
    while at < s.len() {
        let (_, next) = line_n(s, at)?;
        n += 1;
        at = next;
    }
    Some(n)
}

// Stores the words of lines that were judged and fit. The place steps by what was read, as above.
fn store_notes(s: &[u8], start: usize, words: &mut [u32])
    requires { Fitting (notes_of (drop start s.now)) words.old }
    ensures { words.new ≡ words_after (notes_of (drop start s.now)) words.old }
{
    let mut at = start;
    let mut n: usize = 0;
    while at < s.len() {
        let Some(read) = line_n(s, at) else {
            return;
        };
        let note = read.0;
        store_note(words, n, &note);
        n += 1;
        at = read.1;
    }
}

// How many lines there are to the end of s, their words into `words`. Lines are judged and counted also
// where their words do not fit; then, and where one is not of the form, no word changes.
pub(crate) fn notes(s: &[u8], start: usize, words: &mut [u32]) -> Option<usize>
    ensures { Noted (notes_of (drop start s.now)) words.old result words.new }
{
    let n = count_notes(s, start)?;
    if words.len() / 5 < n {
        return Some(n);
    }
    store_notes(s, start, words);
    Some(n)
}

// The lines that the program prints: a card, the cards of all sequences, a refusal.
ghost use Rattle.std.specs.Prelude.{◌≡◌, ◌∷◌, ◌+◌, ◌*◌, ◌≤◌, ◌<◌, length};
ghost use Rattle.column.specs.Words.{number};
ghost use Rattle.cards.specs.Layout.{card_words};
ghost use Rattle.text.specs.Text.{Put, PutWithin};
ghost use Rattle.text.specs.Number.{numeral};
ghost use Rattle.card_text.specs.Line.{spaced, card_line, card_lines, refusal_line};
ghost use Rattle.card_text.specs.Writers.{highest_word, word_digits, digits_below, numbers_of, number_bytes, numbers_bytes, line_bytes, refusal_bytes};

use text::area::Text;
use text::number::{DECIMAL, HEXADECIMAL};
use writer::block::{CARD_WORDS, COLUMN_WORDS};
use writer::card::COLUMNS;

// How many hexadecimal digits a word has.
const WORD_DIGITS: usize = 16;

// The most bytes of the flags and of a column: a space, and the digits of a word, or of a column's words.
const MOST_FLAGS_BYTES: usize = 1 + WORD_DIGITS;

const MOST_COLUMN_BYTES: usize = 1 + WORD_DIGITS * COLUMN_WORDS;

// The most bytes of a line: the number of the sequence, which has at most ten digits, the numbers of the card, and the end of the line.
const MOST_LINE_BYTES: usize = 10 + MOST_FLAGS_BYTES + MOST_COLUMN_BYTES * COLUMNS + 1;

// The most sequences that the program prints the cards of, and the most bytes of their lines.
pub const MOST_LINES: usize = 160;

pub const MOST_TEXT_BYTES: usize = MOST_LINE_BYTES * MOST_LINES;

// The highest word that is not 0, word 0 where there is none.
fn highest(words: &[u64]) -> usize
    ensures { result ≡ highest_word words.now }
{
    words.iter().rposition(|w| *w != 0).unwrap_or(0)
}

// Puts the digits of words, all of each, in front of the text: the lowest word has the last digits.
fn put_low(text: &mut Text, words: &[u64])
    requires { word_digits * length words.now ≤ text.old.begin }
    ensures { Put text.old (digits_below words.now (length words.now)) text.new }
{
    for w in words {
        text.put_digits(HEXADECIMAL, WORD_DIGITS, *w);
    }
}

// Puts the number that words are, after a space, in front of the text: the highest word that is not 0 has no zeros in front.
fn put_number(text: &mut Text, words: &[u64])
    requires { (0 < length words.now) × (number_bytes (length words.now) ≤ text.old.begin) }
    ensures { PutWithin (number_bytes (length words.now)) text.old (32 ∷ numeral 16 (number words.now)) text.new }
{
    let top = highest(words);
    put_low(text, &words[..top]);
    text.put_numeral(HEXADECIMAL, words[top]);
    text.put_byte(b' ');
}

// Puts the numbers of a sequence's card, each after a space, in front of the text.
fn put_numbers(text: &mut Text, sequence: usize, cards: &[u64])
    requires { (numbers_bytes ≤ text.old.begin) × (card_words * (sequence + 1) ≤ length cards.now) }
    ensures { PutWithin numbers_bytes text.old (spaced (numbers_of cards.now sequence)) text.new }
{
    let flags = CARD_WORDS * sequence;
    for k in (0..COLUMNS).rev() {
        let from = flags + 1 + COLUMN_WORDS * k;
        put_number(text, &cards[from..from + COLUMN_WORDS]);
    }
    put_number(text, &cards[flags..flags + 1]);
}

// Puts a sequence's line in front of the text.
pub fn put_line(text: &mut Text, sequence: u32, cards: &[u64])
    requires { (line_bytes ≤ text.old.begin) × (card_words * (sequence + 1) ≤ length cards.now) }
    ensures { PutWithin line_bytes text.old (card_line sequence (numbers_of cards.now sequence)) text.new }
{
    text.put_byte(b'\n');
    put_numbers(text, sequence as usize, cards);
    text.put_numeral(DECIMAL, u64::from(sequence));
}

// Puts the lines of the first `n` sequences, whose cards stand one after the other, in front of the text.
pub fn put_lines(text: &mut Text, n: u32, cards: &[u64])
    requires { (line_bytes * n ≤ text.old.begin) × (card_words * n ≤ length cards.now) }
    ensures { Put text.old (card_lines (numbers_of cards.now) n) text.new }
{
    for c in (0..n).rev() {
        put_line(text, c, cards);
    }
}

// Puts the line of a refusal in front of the text.
pub fn put_refusal(text: &mut Text, number: u64, position: u64)
    requires { refusal_bytes ≤ text.old.begin }
    ensures { Put text.old (refusal_line number position) text.new }
{
    text.put_byte(b'\n');
    text.put_numeral(DECIMAL, position);
    text.put_bytes(b" at ");
    text.put_numeral(DECIMAL, number);
    text.put_bytes(b"refused ");
}

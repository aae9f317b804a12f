// What the program prints: for an answer of the card call, and for the bytes of its input.
ghost use Rattle.std.specs.Prelude.{◌≤◌, length};
ghost use Rattle.text.specs.Words.{words_of};
ghost use Rattle.text.specs.Text.{InFront, Put};
ghost use Rattle.card_text.specs.Print.{answer_text, image_text, printed};
ghost use Rattle.card_text.specs.Writers.{numbers_of, text_bytes, AnswerAsked};

use crate::line::{MOST_LINES, put_lines, put_refusal};
use card::call::cards;
use image::answer::Refusal;
use image::word::MOST_WORDS;
use text::area::Text;
use text::bytes::{WORD_BYTES, write_words};
use writer::block::CARD_WORDS;

// The most bytes of an image.
pub const MOST_BYTES: usize = WORD_BYTES * MOST_WORDS;

// The words of the program's card area.
const PROGRAM_WORDS: usize = CARD_WORDS * MOST_LINES;

// Puts the cards' lines, or the refusal's, in front of the text.
pub fn put_answer(text: &mut Text, found: Result<u32, Refusal>, cards: &[u64])
    requires { AnswerAsked text.old found cards.now }
    ensures { Put text.old (answer_text found (numbers_of cards.now)) text.new }
{
    match found {
        Ok(n) => put_lines(text, n, cards),
        Err(r) => put_refusal(text, r.number(), u64::from(r.position())),
    }
}

// Puts the text of an image in front of the text.
fn put_cards(text: &mut Text, image: &[u32])
    requires { text_bytes ≤ text.old.begin }
    ensures { Put text.old (image_text image.now) text.new }
{
    let mut area = [0u64; PROGRAM_WORDS];
    let found = cards(image, &mut area);
    put_answer(text, found, &area);
}

// Puts the text of the image that the bytes hold in front of the text.
fn put_words(text: &mut Text, bytes: &[u8])
    requires { (length bytes.now ≤ 32768) × (text_bytes ≤ text.old.begin) }
    ensures { Put text.old (image_text (words_of bytes.now)) text.new }
{
    let mut words = [0u32; MOST_WORDS];
    write_words(bytes, &mut words);
    let n = bytes.len() / WORD_BYTES;
    put_cards(text, &words[..n]);
}

// Puts what the program prints for the bytes of its input in front of the text.
fn put_printed(text: &mut Text, bytes: &[u8])
    requires { text_bytes ≤ text.old.begin }
    ensures { Put text.old (printed bytes.now) text.new }
{
    if bytes.len() <= MOST_BYTES && bytes.len() % WORD_BYTES == 0 {
        put_words(text, bytes);
    } else {
        put_answer(text, Err(Refusal::Length), &[]);
    }
}

// Puts what the program prints for the bytes of its input at the end of the text area, and says where it begins.
pub fn print_image(bytes: &[u8], text: &mut [u8]) -> usize
    requires { text_bytes ≤ length text.old }
    ensures { InFront text.old (length text.old) text.new result (printed bytes.now) }
{
    let mut out = Text::at_end(text);
    put_printed(&mut out, bytes);
    out.begin
}

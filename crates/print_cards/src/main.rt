// Prints the cards of the library image on standard input, a line a sequence, or why the image is refused.
#![tactic(auto)]

ghost use Rattle.std.specs.Prelude.{length, IfSome, OnOk};
ghost use Rattle.std.specs.Io.KnownBytes.{Appends};
ghost use Rattle.card_text.specs.Print.{printed};
ghost use Rattle.print_cards.specs.Input.{InputWithin, InputRead};

use card_text::line::MOST_TEXT_BYTES;
use card_text::print::{MOST_BYTES, print_image};
use std::io::{Read, Write};

// What kept the program from its work.
#[derive(Clone, Copy)]
pub enum Failure {
    Read,
    Write,
}

// Reads the input, in as many pieces as it comes in, until `input` is full or the input ends, and says how many bytes came.
fn read_input<R: Read>(reader: &mut R, input: &mut [u8]) -> Result<usize, Failure>
    ensures within { InputWithin result (length input.new) }
    ensures bytes { InputRead (R.remaining reader.old) (R.remaining reader.new) result input.new }
{
    let mut n = 0;
    // No `for`: a piece is as long as what comes in.
    while n < input.len() {
        match reader.read(&mut input[n..]).map_err(|_| Failure::Read)? {
            0 => return Ok(n),
            more => n += more,
        }
    }
    Ok(n)
}

// Prints what the bytes of an image get.
fn print<W: Write>(writer: &mut W, bytes: &[u8]) -> Result<(), Failure>
    ensures { OnOk result (Appends (W.contents writer.old) (W.contents writer.new) (printed bytes.now)) }
{
    let mut text = [0u8; MOST_TEXT_BYTES];
    let start = print_image(bytes, &mut text);
    writer.write_all(&text[start..]).map_err(|_| Failure::Write)
}

// Prints the cards of the image that the input has. One byte more than an image has at most is enough to tell that there are too many.
fn print_input<R: Read, W: Write>(reader: &mut R, writer: &mut W) -> Result<(), Failure>
    ensures { OnOk result (IfSome (R.remaining reader.old)
        (λ bytes. Appends (W.contents writer.old) (W.contents writer.new) (printed bytes))) }
{
    let mut input = [0u8; MOST_BYTES + 1];
    let n = read_input(reader, &mut input)?;
    print(writer, &input[..n])
}

// Output that cannot be written is let go.
fn main(rt: HostRuntime) {
    if let Err(Failure::Read) = print_input(&mut rt.stdin(), &mut rt.stdout()) {
        let _ = rt.eprintln("print_cards: standard input cannot be read");
    }
}

// Runs the samples of document 01 that are not starred, through the calls of the C side, and prints a line for each: what is asked, and the
// answer. The file `stdout` has what must be printed.
#![tactic(auto)]

use std::io;

// Library L, as document 01 prints it, with the head of document 02, request 8, and the sum word of request 6.
const L: [u32; 20] = [
    0x10180603, 0x50000000, 0x30000000, 0x50000001, 0x20000000, 0x30000001, 0x50000002, 0x40000001,
    0x60000000, 0x70000000, 0x80000000, 0x70000000, 0x60000001, 0x70000000, 0x90000000, 0x80000001,
    0x60000002, 0x70000000, 0x90000002, 0xf1d65e90,
];

// Heads with F = 256 and F = 257, A = C = 0. There is one running sum, what the head counts as: 0x100 + 1024 = 0x500, 0x101 + 1024 = 0x501.
const FACTS_256: [u32; 2] = [0x10000100, 0xf0000500];

const FACTS_257: [u32; 2] = [0x10000101, 0xf0000501];

// An answer is the number that the C side gets: N × 2^32 + P for refusal N at position P, below 2^32 what the call is for.
fn show(rt: &impl Print, sample: &str, answer: u64) -> io::Result<()> {
    let refusal = answer >> 32;
    let low = answer % 4294967296;
    if refusal != 0 {
        println!(rt; "{sample}refused {refusal} at {low}")
    } else {
        println!(rt; "{sample}{low}")
    }
}

// "L: card area 20 words gets 8, 21 suffices"; document 02, request 4: "in L's sample the areas become one word too few and just enough", since
// request 8 146 and 147: refused 8 at 0, and C = 3.
fn card_areas(rt: &impl Print) -> io::Result<()> {
    let mut short = [0u64; 146];
    let mut enough = [0u64; 147];
    show(
        rt,
        "L, card area 146 words: ",
        dulimoven::dulimoven_cards(&L, &mut short),
    )?;
    show(
        rt,
        "L, card area 147 words: ",
        dulimoven::dulimoven_cards(&L, &mut enough),
    )
}

// "sequence 3 gets 9; question 6 with fact 3 gets 10.": refused 9 at 0, refused 10 at 0.
fn questions(rt: &impl Print) -> io::Result<()> {
    let mut area = [0u32; 6];
    show(
        rt,
        "L, sequence 3: ",
        dulimoven::dulimoven_chain(&L, 3, 0, 0, &mut area),
    )?;
    show(
        rt,
        "L, question 6 with fact 3: ",
        dulimoven::dulimoven_chain(&L, 0, 6, 3, &mut area),
    )
}

// "F = 64 is read, 65 gets 3."; document 02, request 8: "256 and 257 replace the sample of 64 and 65": the head's payload, 256, and refused 3 at 0.
fn facts(rt: &impl Print) -> io::Result<()> {
    show(rt, "F = 256: ", dulimoven::dulimoven_check(&FACTS_256))?;
    show(rt, "F = 257: ", dulimoven::dulimoven_check(&FACTS_257))
}

fn main(rt: HostRuntime) -> io::Result<()> {
    card_areas(&rt)?;
    questions(&rt)?;
    facts(&rt)
}

// A table of inputs and answers: each line of standard input is an input to the charge sheet, and is written back with
// its answer. In both, `>` stands for a tab, `/` for byte 10, `^` for byte 13, `~` for byte 200 and `@` for byte 0. A
// line `#N` stands for a right order line and N letters, and `!N` in front of an input hands over only N page bytes,
// which are shown whole, with `.` for those that stay.
#![tactic(auto)]

use page::answer::{INPUT_BYTES, PAGE_BYTES, Written, answer};
use std::alloc::{AllocError, Global};
use std::iter;

fn decoded_byte(b: u8) -> u8 {
    match b {
        b'>' => b'\t',
        b'/' => b'\n',
        b'^' => b'\r',
        b'~' => 200,
        b'@' => 0,
        _ => b,
    }
}

fn decoded(heap: Global, case: &[u8]) -> Result<Vec<u8>, AllocError> {
    case.iter().map(|b| decoded_byte(*b)).collect(heap)
}

fn shown_byte(b: u8) -> char {
    match b {
        b'\t' => '>',
        b'\n' => '/',
        _ => char::from(b),
    }
}

fn shown(heap: Global, bytes: &[u8]) -> Result<String, AllocError> {
    bytes.iter().map(|b| shown_byte(*b)).collect(heap)
}

// A right order line, and that many letters after it.
fn letters(heap: Global, count: usize) -> Result<Vec<u8>, AllocError> {
    let mut input = decoded(heap, b"1>30>C>10/")?;
    input.extend(iter::repeat_n(b'A', count))?;
    Ok(input)
}

// What is written for the input where the program's own page bytes are handed over.
fn answered(heap: Global, input: &[u8]) -> Result<String, AllocError> {
    let mut page = vec![in heap; b'.'; PAGE_BYTES]?;
    let written = answer(input, page.as_mut_slice());
    let end = written.len().min(page.len());
    shown(heap, &page[..end])
}

// All the page bytes after the input, where only some are handed over, and how many were written.
fn cramped(heap: Global, input: &[u8], bytes: usize) -> Result<String, AllocError> {
    let mut page = vec![in heap; b'.'; bytes]?;
    let written = answer(input, page.as_mut_slice());
    let (state, len) = match written {
        Written::Sheet(len) => ("written", len),
        Written::Refusal(len) => ("refused", len),
    };
    let left = shown(heap, page.as_slice())?;
    format!(in heap; "{state} {len} [{left}]")
}

fn case(heap: Global, text: &str) -> anyhow::Result<String> {
    if let Some(digits) = text.strip_prefix("#") {
        let input = letters(heap, digits.parse::<usize>()?)?;
        return Ok(answered(heap, input.as_slice())?);
    }
    if let Some(rest) = text.strip_prefix("!")
        && let Some((digits, encoded)) = rest.split_once(" ")
    {
        let input = decoded(heap, encoded.as_bytes())?;
        return Ok(cramped(heap, input.as_slice(), digits.parse::<usize>()?)?);
    }
    let input = decoded(heap, text.as_bytes())?;
    Ok(answered(heap, input.as_slice())?)
}

fn main(rt: HostRuntime) -> anyhow::Result<()> {
    println!(rt; "input bytes {INPUT_BYTES}, page bytes {PAGE_BYTES}")?;
    for line in rt.lines(rt.alloc()) {
        let text = line?;
        let written = case(rt.alloc(), text.as_str())?;
        println!(rt; "{text} => {written}")?;
    }
    Ok(())
}

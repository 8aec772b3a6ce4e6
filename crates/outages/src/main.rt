// Reads an order and a station file from standard input, and writes the charge sheet, or the line that says why the
// input is refused; a refused input ends the program with status 1.
#![tactic(auto)]

use page::answer::{INPUT_BYTES, PAGE_BYTES, Written, answer};
use std::io::{Read, Write};
use std::process::ExitCode;

fn main(rt: HostRuntime) -> anyhow::Result<ExitCode> {
    let mut input = Vec::new(rt.alloc());
    // `as`: std has no From between usize and u64.
    rt.stdin().take(INPUT_BYTES as u64).read_to_end(&mut input)?;
    let mut page = vec![in rt.alloc(); 0u8; PAGE_BYTES]?;
    let written = answer(input.as_slice(), page.as_mut_slice());
    let end = written.len().min(page.len());
    rt.stdout().write_all(&page[..end])?;
    Ok(match written {
        Written::Sheet(_) => ExitCode::SUCCESS,
        Written::Refusal(_) => ExitCode::FAILURE,
    })
}

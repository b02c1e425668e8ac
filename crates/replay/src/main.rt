// Answers a list of inputs in bits, read from standard input: each line of it, and what the vessel answers.
// A line is fixed in width: call, region, property, limit and two doubles, in hexadecimal digits with a space between. So it is read into fixed memory, and no heap is needed.
#![tactic(auto)]

mod line;

use crate::line::answered;
use show::Columns;
use std::io;
use std::io::Read;

fn not_an_input(rt: &impl Print, number: u64) -> io::Result<()> {
    println!(rt; "line {number}: not an input of replay")
}

fn tell(rt: &impl Print, line: &[u8; 47], number: u64) -> io::Result<()> {
    let Some(answer) = answered(line) else {
        return not_an_input(rt, number);
    };
    rt.write_all(&line[..46])?;
    println!(rt; ": {}", Columns(answer))
}

// Reads a line and answers it, and says whether there was one. A line that the input cuts short is no input. No io::copy: it clears 8 KiB of its own for each line.
fn one(rt: &impl Print, input: &mut impl Read, number: u64) -> io::Result<bool> {
    let mut line = [0u8; 47];
    let begun = input.read(&mut line)?;
    if begun == 0 {
        return Ok(false);
    }
    match input.read_exact(&mut line[begun..]) {
        Ok(()) => tell(rt, &line, number)?,
        Err(e) => {
            if e.kind() != io::ErrorKind::UnexpectedEof {
                return Err(e);
            }
            not_an_input(rt, number)?;
        }
    }
    Ok(true)
}

// A proved loop has to end, and nothing says that the input does: the last number is one that no run reaches.
fn main(rt: HostRuntime) -> io::Result<()> {
    let mut input = rt.stdin();
    for number in 1..u64::MAX {
        if !one(&rt, &mut input, number)? {
            break;
        }
    }
    Ok(())
}

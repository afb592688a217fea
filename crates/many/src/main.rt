// Many run files in one process, for comparisons: what the bench prints for each of them, from the same call. Each run file comes after three bytes with its length, each printed run goes out after four with its own, the first byte the highest.
#![tactic(auto)]

use std::io;
use std::io::{Read, Write};

// At most 100,000 run files; the end of the input, or a run file that is cut short, ends it.
fn main(rt: HostRuntime) -> io::Result<()> {
    let mut text = [0; 65537];
    let mut out = [0; 1500200];
    for _ in 0..100000 {
        if !one(&rt, &mut rt.stdin(), &mut text, &mut out)? {
            break;
        }
    }
    Ok(())
}

// One run file, and its printed run: whether there may be another.
fn one<R: Read>(
    rt: &(impl Print + Eprint),
    input: &mut R,
    text: &mut [u8; 65537],
    out: &mut [u8; 1500200],
) -> io::Result<bool> {
    let Some(n) = next_length(input)? else {
        return Ok(false);
    };
    let Some(file) = text.get_mut(..n) else {
        return Ok(false);
    };
    if !read_full(input, file)? {
        return Ok(false);
    }
    print_run(rt, file, out)
}

// Prints one run, after its length.
#[tactic(auto, using(printout::proofs::Answers::printed_within))]
fn print_run(rt: &(impl Print + Eprint), text: &[u8], out: &mut [u8; 1500200]) -> io::Result<bool> {
    let Some(m) = printout::print(text, out) else {
        eprintln!(rt; "many: no room for the run")?;
        return Ok(false);
    };
    io::writer(rt).write_all(&(m as u32).to_be_bytes())?;
    io::writer(rt).write_all(&out[..m])?;
    Ok(true)
}

// The length of the next run file, or none where the input ends.
fn next_length<R: Read>(input: &mut R) -> io::Result<Option<usize>> {
    let mut head = [0; 4];
    if !read_full(input, &mut head[1..])? {
        return Ok(None);
    }
    Ok(Some(u32::from_be_bytes(head) as usize))
}

// Reads until the buffer is full, or the input ends: whether it is full.
// Stays: a read that a signal interrupts ends the programs with an error, here as in `bench`; read_exact tries again.
fn read_full<R: Read>(input: &mut R, buf: &mut [u8]) -> io::Result<bool> {
    let mut done = 0;
    while done < buf.len() {
        let n = input.read(&mut buf[done..])?;
        if n == 0 {
            return Ok(false);
        }
        done += n;
    }
    Ok(true)
}

// The bench: a run file on standard input, its run on standard output. What is printed for which bytes is said and proved in `printout`.
#![tactic(auto)]

ghost use Rattle.std.specs.Prelude.{◌≤◌, length, IfOk};

use std::io;
use std::io::{Read, Write};

// The run file is read whole, up to one byte more than it may have, so that too long is seen.
fn main(rt: HostRuntime) -> io::Result<()> {
    let mut text = [0; 65537];
    let Ok(n) = read_all(&mut rt.stdin(), &mut text) else {
        return eprintln!(rt; "bench: the run file cannot be read");
    };
    let mut out = [0; 1500200];
    print_run(&rt, &text[0..n], &mut out)
}

// The printed run goes out in one piece. No run is longer than 1,500,200 bytes.
#[tactic(auto, using(printout::proofs::Answers::printed_within))]
fn print_run(rt: &(impl Print + Eprint), text: &[u8], out: &mut [u8; 1500200]) -> io::Result<()> {
    let Some(m) = printout::print(text, out) else {
        return eprintln!(rt; "bench: no room for the run");
    };
    let Ok(()) = io::writer(rt).write_all(&out[..m]) else {
        return eprintln!(rt; "bench: the run cannot be written");
    };
    Ok(())
}

// Reads until the input ends or the buffer is full: how many bytes.
// Stays: a read gives as many bytes as it likes, so they are summed; read_exact tells no count, and read_to_end takes a heap (fixed memory).
fn read_all<R: Read>(input: &mut R, buf: &mut [u8]) -> io::Result<usize>
    ensures { IfOk result (λ n. n ≤ length buf.new) }
{
    let mut done = 0;
    while done < buf.len() {
        let n = input.read(&mut buf[done..])?;
        if n == 0 {
            break;
        }
        done += n;
    }
    Ok(done)
}

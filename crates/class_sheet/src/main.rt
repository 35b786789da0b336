// Prints the class sheet of the line `k m L` on standard input. After a write that fails it prints nothing more,
// says why on standard error, and ends with status 1.
#![tactic(auto)]

ghost use Rattle.std.specs.Prelude.{◌≤◌, length, IfSome};

use line::Line;
use sheet::pieces;
use std::io;
use std::io::Read;
use std::process::ExitCode;
use table::Refusal;

// One byte more than the longest line has, so that nothing after it is missed.
const INPUT: usize = 13;

// Prints the piece at the front of out, where there is one. Each function that prints fails where not all was written.
fn print_piece(rt: &impl Print, piece: Option<usize>, out: &[u8]) -> io::Result<()>
    requires { IfSome piece (λ n. n ≤ length out.now) }
{
    match piece {
        Some(n) => rt.write_all(&out[..n]),
        None => Ok(()),
    }
}

// A line for each choice, from the first until none is left.
fn print_rows(rt: &impl Print, line: Line, out: &mut [u8]) -> io::Result<()> {
    let mut next = choices::first(line.k, line.m);
    while let Some(c) = next {
        print_piece(rt, pieces::row(line, c, out), out)?;
        next = choices::next(line.k, line.m, c);
    }
    Ok(())
}

// The header and the rows, or the only line where the input is refused.
fn print_sheet(rt: &impl Print, read: Result<Line, Refusal>, out: &mut [u8]) -> io::Result<()> {
    match read {
        Ok(line) => {
            print_piece(rt, pieces::header(out), out)?;
            print_rows(rt, line, out)
        }
        Err(why) => print_piece(rt, pieces::refusal(why.number(), out), out),
    }
}

// Reads until the input is full, ends or cannot be read, and says how many bytes stand at its start.
fn read_full(reader: &mut impl Read, input: &mut [u8]) -> usize
    ensures { result ≤ length input.new }
{
    let mut n = 0;
    while n < input.len() {
        match reader.read(&mut input[n..]) {
            Ok(0) | Err(_) => break,
            Ok(more) => n += more,
        }
    }
    n
}

fn main(rt: HostRuntime) -> ExitCode {
    let mut input = [0u8; INPUT];
    let n = read_full(&mut rt.stdin(), &mut input);
    let read = line::read(&input[..n]);
    let mut out = [0u8; pieces::ROOM];
    match print_sheet(&rt, read, &mut out) {
        Ok(()) => ExitCode::SUCCESS,
        Err(why) => {
            let _ = eprintln!(rt; "class_sheet: {why}");
            ExitCode::FAILURE
        }
    }
}

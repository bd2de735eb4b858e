// Reads a schedule, one call a line, carries out each call and prints what it did.
#![tactic(auto)]

use desk::{Answer, Desk, Tally};
use std::io::{BufRead, BufReader, BufWriter, Write};
use std::{env, fs, io};

fn main(rt: HostRuntime) -> anyhow::Result<()> {
    run(&rt)
}

// From each file that an argument names, one after the other, `-` being standard input; with no argument from standard input.
fn run(rt: &HostRuntime) -> anyhow::Result<()> {
    let mut args = env::args(rt)?;
    let _name = args.next();
    let Some(first) = args.next() else {
        play(rt, "-")?;
        return Ok(());
    };
    play(rt, first.as_str())?;
    for path in args {
        play(rt, path.as_str())?;
    }
    Ok(())
}

fn play(rt: &HostRuntime, path: &str) -> io::Result<()> {
    if path == "-" {
        return replay(rt, BufReader::new(rt.alloc(), rt.stdin())?);
    }
    let file = fs::open(rt, path)?;
    replay(rt, BufReader::new(rt.alloc(), file)?)
}

// Answers every line but empty ones and comments, one line in memory at a time: in one buffer, since each of `split`'s would want memory
// of its own.
fn replay<R: BufRead + Drop>(rt: &HostRuntime, mut input: R) -> io::Result<()> {
    let mut out = BufWriter::new(rt.alloc(), rt.stdout())?;
    let mut desk = Desk::Nothing;
    let mut tally = Tally::new();
    let mut line: Vec<u8> = Vec::new(rt.alloc());
    for _ in 0..u64::MAX {
        line.clear();
        if input.read_until(b'\n', &mut line)? == 0 {
            break;
        }
        let text = without_end(line.as_slice());
        if is_skipped(text) {
            continue;
        }
        let answer = desk.answer_line(text);
        tally = tally.with(answer);
        write_answer(&mut out, text, answer, &desk)?;
    }
    writeln!(out, "{tally}")?;
    out.flush()
}

// The line without its line feed, which the last one may lack.
fn without_end(line: &[u8]) -> &[u8] {
    line.strip_suffix(b"\n").unwrap_or(line)
}

// Empty lines and comments are not answered.
fn is_skipped(text: &[u8]) -> bool {
    match text {
        [] => true,
        [first, ..] => *first == b'#',
    }
}

// The line as it came, and the answer.
fn write_answer<W: Write>(out: &mut W, text: &[u8], answer: Answer, desk: &Desk) -> io::Result<()> {
    out.write_all(text)?;
    match answer {
        Answer::Show => writeln!(out, " = {desk}")?,
        _ => writeln!(out, " = {answer}")?,
    }
    out.flush()
}

// Reads commands from standard input, one to a line, and writes the answer to each on a line.
#![tactic(auto)]

ghost use Rattle.console.specs.Runs.{Answers};

use commands::answer::Answer;
use commands::command::{Command, parse};
use commands::line::without_end;
use std::io;
use std::io::{BufRead, BufReader, BufWriter, Write};

fn run(command: Command) -> Answer
    ensures { Answers command result }
{
    match command {
        Command::Table(bytes) => match translator::accept(&bytes) {
            Ok(_) => Answer::Accepted,
            Err(refusal) => Answer::Refused(refusal),
        },
    }
}

fn main(rt: HostRuntime) -> io::Result<()> {
    let heap = rt.alloc();
    let mut input = BufReader::new(heap, rt.stdin())?;
    let mut output = BufWriter::new(heap, rt.stdout())?;
    let mut line = Vec::new(heap);
    // Every loop ends, so this one counts more turns than an input can have lines. `split` would
    // not tell whether the last line has its end, and would make a buffer for each.
    for _ in 0..u64::MAX {
        line.clear();
        if input.read_until(b'\n', &mut line)? == 0 {
            break;
        }
        let answer = match parse(heap, without_end(&line)) {
            Ok(Some(command)) => run(command),
            Ok(None) => continue,
            Err(mistake) => Answer::Error(mistake),
        };
        writeln!(output, "{answer}")?;
        // who sent the line may wait for the answer
        output.flush()?;
    }
    Ok(())
}

// The bench: reads a script from standard input, one call to a line, and prints the record, each line
// as it was read with its answer behind it.
#![tactic(auto)]

mod answer;
mod command;
mod messages;
mod records;

use answer::{Answer, octet_answer, seconds_answer};
use command::{Command, Line, understand};
use messages::{tell_handset, tell_network};
use records::tell_record;
use std::alloc::Global;
use std::io;
use std::io::{BufRead, BufReader, Write};

// The answer behind a line.
fn write_answer(out: &mut impl Write, answer: Answer) -> io::Result<()> {
    writeln!(out, " -> {answer}")
}

// Makes a call, and writes its answer.
fn perform(out: &mut impl Write, command: Command) -> io::Result<()> {
    match command {
        Command::Octet(octet) => write_answer(out, octet_answer(octet)),
        Command::Seconds(seconds) => write_answer(out, seconds_answer(seconds)),
        Command::Read(octets) => tell_network(out, octets.as_slice()),
        Command::Sent(octets) => tell_handset(out, octets.as_slice()),
        Command::Record(octets) => tell_record(out, octets.as_slice()),
    }
}

// One line of the record: remarks are printed as they are.
fn record_line(out: &mut impl Write, heap: Global, line: &[u8]) -> io::Result<()> {
    let understood = understand(heap, line)?;
    out.write_all(line)?;
    match understood {
        Line::Remark => writeln!(out, ""),
        Line::Call(command) => perform(out, command),
        Line::NotUnderstood => write_answer(out, Answer::NotUnderstood),
    }
}

fn main(rt: HostRuntime) -> io::Result<()> {
    let heap = rt.alloc();
    let mut out = rt.stdout();
    for line in BufReader::new(heap, rt.stdin())?.split(heap, b'\n') {
        record_line(&mut out, heap, line?.as_slice())?;
    }
    Ok(())
}

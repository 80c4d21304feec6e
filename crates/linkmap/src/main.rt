// Reads commands from the standard input, one a line, carries each out on a table of links, and
// answers it with what was done.
#![tactic(auto)]

use anyhow::anyhow;
use commands::command::Command;
use commands::faults::Complaint;
use commands::parsing::parse;
use keys::nodes::Account;
use keys::weights::Price;
use linktable::links::{Links, line_at, perform};
use linktable::room::{MOST, room_for};
use std::io::{BufRead, BufReader};
use std::{env, io};
use table::slot::Slot;
use table::table::Table;
use text::lines::without_newline;

// Each place with its link, by `line_at`, whose contract says what a line shows.
fn list(rt: &impl Print, links: &Links<'_>) -> io::Result<()> {
    for line in (0..links.len()).filter_map(|place| line_at(links, place)) {
        rt.println(line)?;
    }
    Ok(())
}

// Answers the line that is the `number`-th of the input.
fn answer(rt: &impl Print, links: &mut Links<'_>, number: u64, line: &[u8]) -> io::Result<()> {
    match parse(line) {
        Ok(None) => Ok(()),
        Ok(Some(command)) => {
            if let Command::List = command {
                list(rt, links)?;
            }
            rt.println(perform(links, command))
        }
        Err(fault) => rt.println(Complaint {
            line: number,
            fault,
        }),
    }
}

// The room that the command line asks for, or else the most.
fn room(rt: &HostRuntime) -> anyhow::Result<usize> {
    env::args(rt)?
        .nth(1)
        .map_or(Ok(MOST), |word| room_for(word.as_bytes()))
        .map_err(|_| anyhow!("the capacity is no number of 32 bits"))
}

fn run(rt: &HostRuntime) -> anyhow::Result<()> {
    let vacant = Slot::new((Account(0), Account(0)), Price(0));
    let mut memory = vec![in rt.alloc(); vacant; room(rt)?].map_err(|_| anyhow!(
        "no memory for the links"
    ))?;
    let mut links = Table::new(memory.as_mut_slice());
    let mut input = BufReader::new(rt.alloc(), rt.stdin())?;
    // One buffer serves every line: `split` allocates one for each, and was a tenth slower.
    let mut line = Vec::new(rt.alloc());
    for number in 1..u64::MAX {
        line.clear();
        if input.read_until(b'\n', &mut line)? == 0 {
            return Ok(());
        }
        answer(rt, &mut links, number, without_newline(&line))?;
    }
    Err(anyhow!("more lines than can be counted"))
}

fn main(rt: HostRuntime) -> anyhow::Result<()> {
    run(&rt)
}

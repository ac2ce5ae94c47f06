//! `measure WHAT N`: does something N times over, for `bench/parts` to take the time of. Nothing else stands on it.
#![tactic(auto)]

mod datagrams;
mod learning;
mod nodes;
mod parsing;
mod proposing;
mod votes;

use std::io;
use std::process::ExitCode;

/// Prints how much was done, and ends with status 0; with status 2 where the words are others, and 1 where memory is refused.
fn main(rt: HostRuntime) -> ExitCode {
    match run(&rt) {
        Ok(status) => ExitCode::from(status),
        Err(_) => ExitCode::from(1),
    }
}

#[tactic(auto, unfolding(ballots::specs::Values::positions))]
/// Does what the words say.
fn run(rt: &HostRuntime) -> io::Result<u8> {
    let words: Vec<String> = std::env::args(rt)?.collect(rt.alloc())?;
    let (what, count) = match words.as_slice() {
        [_, what, count] => (what.as_str(), count.parse::<u32>().unwrap_or(0)),
        _ => ("", 0),
    };
    let count = count.min(1_000_000);
    let done = match what {
        "votes" => votes::put(rt.alloc(), count).map(|_| count),
        "prepares" => votes::prepared(rt.alloc(), count),
        "learnt" => learning::learnt(rt.alloc(), count),
        "proposed" => proposing::proposed(rt.alloc(), count),
        "decode" => datagrams::decoded(rt.alloc(), false, count),
        "decode-long" => datagrams::decoded(rt.alloc(), true, count),
        "encode" => datagrams::encoded(rt.alloc(), false, count),
        "encode-long" => datagrams::encoded(rt.alloc(), true, count),
        "texts" => parsing::made(rt.alloc(), count),
        "parse" => parsing::parsed(rt.alloc(), count),
        "nodes" => nodes::made(rt.alloc(), count).map(|_| count),
        "print" => nodes::printed(rt.alloc(), count),
        "compare" => nodes::compared(rt.alloc(), count),
        "before" => nodes::siblings_compared(rt.alloc(), count, true),
        "not-before" => nodes::siblings_compared(rt.alloc(), count, false),
        "deep-before" => nodes::deep_compared(rt.alloc(), count, true),
        "not-deep-before" => nodes::deep_compared(rt.alloc(), count, false),
        "ordered" => nodes::ordered(rt.alloc(), count, true),
        "not-ordered" => nodes::ordered(rt.alloc(), count, false),
        "between" => nodes::put_between(rt.alloc(), count, true),
        "alone" => nodes::put_between(rt.alloc(), count, false),
        _ => return Ok(2),
    };
    match done {
        Some(done) => {
            println!(rt; "{done}")?;
            Ok(0)
        }
        None => Ok(1),
    }
}

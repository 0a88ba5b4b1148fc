//! Pseudo-random plans, compared and opened under every kind of order, and held against a checker by complete
//! determinisation. It prints what it counted, and each difference as it comes.
#![tactic(auto)]

mod answer;
mod both;
mod buffers;
mod drawing;
mod file;
mod orders;
mod product;
mod question;
mod random;
mod relation;
mod round;
mod session;
mod sides;
mod sketch;
mod subject;
mod tally;
mod trial;

use anyhow::ensure;
use buffers::Bench;
use file::is_known_file;
use round::play;
use session::Session;
use tally::{Fault, Tally};

/// How many pairs of plans are drawn.
const ROUNDS: u64 = 1000;

fn main(rt: HostRuntime) -> anyhow::Result<()> {
    run(&rt)
}

/// Prints the differences that were noted, and answers how many there are.
fn print_differences(rt: &impl Print, tally: &mut Tally) -> anyhow::Result<usize> {
    for difference in tally.differences.iter() {
        println!(rt; "{difference}")?;
    }
    let count = tally.differences.len();
    tally.differences.clear();
    Ok(count)
}

/// Holds all trials, prints what was counted, and ends with an error where something differs.
fn run(rt: &(impl Print + AllocGlobal)) -> anyhow::Result<()> {
    let heap = rt.alloc();
    let mut session = Session {
        heap,
        bench: Bench::new(heap, 5100)?,
        tally: Tally::new(heap),
    };
    let mut differences = 0usize;
    if !is_known_file(heap)? {
        session.tally.note_plans(0, Fault::KnownFile)?;
    }
    for seed in 0..ROUNDS {
        play(seed, &mut session)?;
        differences = differences.wrapping_add(print_differences(rt, &mut session.tally)?);
    }
    let tally = session.tally;
    let trials = tally.trials;
    println!(rt; "{tally}")?;
    println!(rt; "{trials} trials, {differences} differences")?;
    ensure!(differences == 0, "some answers are not the checker's");
    Ok(())
}

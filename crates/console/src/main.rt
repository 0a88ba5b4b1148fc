//! Works a script of statements through and prints an answer line for each: from the file that its one argument names,
//! or else from standard input. `console compare PROGRAMME RULE [ORDER] [SLOTS]` compares two plan files in one go, and
//! `console draw PLAN` prints one for a picture.
#![tactic(auto)]

mod files;
mod guarded;
mod orders;
mod outcomes;
mod plans;
mod searches;
mod session;

use anyhow::anyhow;
use files::{compare_files, draw_file};
use session::Session;
use std::io::{Read, Write};
use std::{env, fs};

/// Ends with status 1 where something went wrong, where a comparison of files did not pass, and where a file is no plan.
fn main(rt: HostRuntime) -> anyhow::Result<()> {
    if run(&rt)? {
        Ok(())
    } else {
        Err(anyhow!("not passed"))
    }
}

/// The arguments behind the program's own name.
fn arguments(rt: &HostRuntime) -> anyhow::Result<Vec<String>> {
    Ok(env::args(rt)?.skip(1).collect(rt.alloc())?)
}

/// All of standard input.
fn input(rt: &HostRuntime) -> anyhow::Result<Vec<u8>> {
    let mut script = Vec::new(rt.alloc());
    rt.stdin().read_to_end(&mut script)?;
    Ok(script)
}

/// Does what the arguments ask for. Whether it went well.
fn run(rt: &HostRuntime) -> anyhow::Result<bool> {
    let words = arguments(rt)?;
    match words.as_slice() {
        [] => work(rt, input(rt)?.as_slice()),
        [path] => work(rt, fs::read(rt, path.as_str())?.as_slice()),
        [verb, plan] if verb.as_str() == "draw" => draw_file(rt, plan.as_str()),
        [verb, programme, rule, rest @ ..] if verb.as_str() == "compare" && rest.len() <= 2 => {
            let order = rest.first().map_or("greatest", |order| order.as_str());
            let slots = rest.get(1).map_or("4096", |slots| slots.as_str());
            compare_files(rt, programme.as_str(), rule.as_str(), order, slots)
        }
        _ => Err(anyhow!(
            "console takes one argument at most, the path of a script; or compare PROGRAMME RULE [ORDER] [SLOTS]; or draw PLAN"
        )),
    }
}

/// Works a script through, line by line, and prints each answer before the next line is looked at. At the end all calls
/// on the guard are worked through once more, and held against what was answered.
fn work(rt: &HostRuntime, script: &[u8]) -> anyhow::Result<bool> {
    let heap = rt.alloc();
    let mut session = Session::new(heap);
    let mut answer = Vec::new(heap);
    for line in script.split(|b| *b == b'\n') {
        answer.clear();
        session.work(line, &mut answer)?;
        rt.stdout().write_all(answer.as_slice())?;
    }
    if session.is_confirmed()? {
        Ok(true)
    } else {
        Err(anyhow!("the calls on the guard, worked through once more, were answered otherwise"))
    }
}

use crate::searches::make;
use order::delivered::Delivered;
use order::greatest::rank;
use order::rows::rows_of;
use order::same::Same;
use plan::file::FilePlan;
use plan::interface::Plan;
use plan::refusal::Refusal;
use search::compare::compare;
use std::fs;
use std::io::Write;
use walk::verdict::Verdict;
use wording::answer::{Answer, word_answer};
use wording::draw::draw;
use wording::verdict::word_finding;

/// Says that what stands at a path was refused, and why.
fn refuse(rt: &HostRuntime, path: &str, refusal: Refusal) -> anyhow::Result<()> {
    let mut line = Vec::new(rt.alloc());
    line.extend_from_slice(path.as_bytes())?;
    line.extend_from_slice(b": ")?;
    word_answer(&mut line, Answer::Refused(refusal))?;
    line.push(b'\n')?;
    rt.stdout().write_all(line.as_slice())?;
    Ok(())
}

/// The order that a word names: a path is that of the 512 bytes of a delivered one.
fn order_by(
    rt: &HostRuntime,
    word: &str,
    programme: &FilePlan,
    rule: &FilePlan,
) -> anyhow::Result<Option<[u64; 64]>> {
    match word.as_bytes() {
        b"greatest" => Ok(Some(rank(programme, rule))),
        b"same" => Ok(Some(rows_of(&Same))),
        _ => delivered_at(rt, word),
    }
}

// Stays: no error: the refusal is printed on standard output, and the program then ends with its status.
/// The delivered order that stands at a path. Where the bytes are none, that is said, and nothing is handed back.
fn delivered_at(rt: &HostRuntime, path: &str) -> anyhow::Result<Option<[u64; 64]>> {
    let bytes = fs::read(rt, path)?;
    match Delivered::new(bytes.as_slice()) {
        Ok(order) => Ok(Some(rows_of(&order))),
        Err(refusal) => {
            refuse(rt, path, refusal)?;
            Ok(None)
        }
    }
}

// Stays: no error, as at `delivered_at`.
/// The plan that stands at a path. Where the bytes are none, that is said, and nothing is handed back.
fn plan_at<'a>(
    rt: &HostRuntime,
    path: &str,
    bytes: &'a [u8],
) -> anyhow::Result<Option<FilePlan<'a>>> {
    match FilePlan::read(bytes) {
        Ok(plan) => Ok(Some(plan)),
        Err(refusal) => {
            refuse(rt, path, refusal)?;
            Ok(None)
        }
    }
}

/// Compares two plan files and prints what was found in words. The order is `same`, `greatest`, or the path of a
/// delivered one. Whether it passed.
pub(crate) fn compare_files(
    rt: &HostRuntime,
    programme: &str,
    rule: &str,
    order: &str,
    slots: &str,
) -> anyhow::Result<bool> {
    let slots = slots.parse::<usize>()?;
    let first = fs::read(rt, programme)?;
    let second = fs::read(rt, rule)?;
    let Some(programme) = plan_at(rt, programme, first.as_slice())? else {
        return Ok(false);
    };
    let Some(rule) = plan_at(rt, rule, second.as_slice())? else {
        return Ok(false);
    };
    match order_by(rt, order, &programme, &rule)? {
        Some(order) => compare_plans(rt, &programme, &rule, &order, slots),
        None => Ok(false),
    }
}

/// Compares two plans by an order and prints what was found in words. Whether it passed.
fn compare_plans<'a, P: Plan, R: Plan>(
    rt: &HostRuntime,
    programme: &'a P,
    rule: &'a R,
    order: &[u64; 64],
    slots: usize,
) -> anyhow::Result<bool> {
    let heap = rt.alloc();
    let made = make(heap, slots, slots, |slots, run| {
        compare(programme, rule, order, slots, run)
    })?;
    let mut line = Vec::new(heap);
    let passed = match made.outcome {
        Ok(answer) => {
            word_finding(&mut line, answer, made.run.as_slice())?;
            Verdict::from(answer.0) == Verdict::Passed
        }
        Err(refusal) => {
            word_answer(&mut line, Answer::Refused(refusal))?;
            false
        }
    };
    line.push(b'\n')?;
    rt.stdout().write_all(line.as_slice())?;
    Ok(passed)
}

/// Prints the plan of a file in the language of Graphviz. Whether it is a plan.
pub(crate) fn draw_file(rt: &HostRuntime, path: &str) -> anyhow::Result<bool> {
    let bytes = fs::read(rt, path)?;
    let Some(plan) = plan_at(rt, path, bytes.as_slice())? else {
        return Ok(false);
    };
    let mut text = Vec::new(rt.alloc());
    draw(&mut text, &plan)?;
    text.push(b'\n')?;
    rt.stdout().write_all(text.as_slice())?;
    Ok(true)
}

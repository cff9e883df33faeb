//! Replays lists of requests on three offices: over plain vectors, in memory, and in a file. Each
//! reply is compared with the one that the list has.
//!
//! A list is a file `NAME.txt` in the folder that the program runs in. `lists.txt` has a line for
//! each list: its name, and the formats that the tables are taken back to between its lives, if
//! any. For each list a line is printed, after a line for each reply that is another. A list that
//! cannot be read ends the program with status 1, and so does a file of no office that is opened,
//! or is not left as it was.
//!
//! No function has a contract beyond that it returns.
#![tactic(auto)]

mod list;
mod offices;
mod outcome;
mod refused;

use crate::list::read;
use crate::offices::replay;
use crate::outcome::Outcome;
use crate::refused::refuse;
use office_testing::older::OLDER;
use std::alloc::Global;
use std::fs;
use std::test::Fail;

fn main(rt: HostRuntime) -> Result<(), Fail> {
    let lists = fs::read_to_string(&rt, "lists.txt")?;
    for line in lists.lines() {
        let (name, formats) = line.split_once(' ').unwrap_or((line, ""));
        replay_list(&rt, name, formats)?;
    }
    let count = refuse(&rt)?;
    println!(rt; "{count} files of no office refused, and left as they were")?;
    Ok(())
}

fn replay_list(rt: &HostRuntime, name: &str, formats: &str) -> Result<(), Fail> {
    let alloc = rt.alloc();
    let path = format!(in alloc; "{name}.txt")?;
    let text = fs::read_to_string(rt, path.as_str())?;
    let lives = read(rt, path.as_str(), text.as_str())?;
    let older = older_tables(alloc, formats)?;
    let outcome = replay(rt, lives, &older, Outcome::new(alloc, name))?;
    println!(rt; "{}", outcome.text(alloc, text.as_str())?)?;
    Ok(())
}

// The statements that take tables back to these formats.
fn older_tables(alloc: Global, formats: &str) -> Result<Vec<&'static str>, Fail> {
    let mut older = Vec::new(alloc);
    for format in formats.split_whitespace() {
        let number: usize = format.parse()?;
        let sql = OLDER.get(number.wrapping_sub(1)).ok_or("no older format")?;
        older.push(*sql)?;
    }
    Ok(older)
}

//! Judges a dossier: reads lines from standard input and writes one reply for each to standard output.
#![tactic(auto)]

mod input;
mod output;
mod session;
mod summary;

use crate::session::Session;
use dossiers::opening::open;
use std::io;

fn main(rt: HostRuntime) -> io::Result<()> {
    let mut session = Session::new(rt.stdin(), rt.stdout());
    if let Some((chart, rules)) = session.draft()? {
        session.seal(&chart)?;
        let mut book = open(chart, &rules);
        session.judge(&mut book)?;
    }
    session.finish(&rt)
}

#![tactic(auto)]

mod numbers;
mod samples;
mod session;

use automaton::sizes::Sizes;
use checker::answers::Report;
use samples::Sample;
use scale::flags::Flags;
use scale::minutes::Minutes;
use scale::yes_no::YesNo;
use session::Session;
use std::env;
use std::time::Instant;
use worklist::Worklist;
use worklist::mark_table::MarkTable;
use worklist::ring::Ring;

const fn sizes(controls: usize, states: usize, rules: usize) -> Sizes {
    Sizes {
        controls,
        states,
        symbols: 8,
        limit: rules,
    }
}

// Settles a session to its end and prints how large it was, what settling it took and what came out; with `timed`, also
// the microseconds of the settle and the steps a second.
fn measure<S: Sample + Clone, K: Worklist>(
    rt: &HostRuntime,
    name: &str,
    sizes: Sizes,
    worklist: &mut K,
    timed: bool,
) -> anyhow::Result<()> {
    let mut session = Session::<S, K>::open(rt.alloc(), sizes, worklist)?;
    session.fill()?;
    let begun = Instant::now(rt)?;
    let Report { steps, raises, .. } = session.settle()?;
    let micros = begun.elapsed(rt)?.as_micros();
    let digest = session.digest()?;
    let Sizes { states, limit, .. } = sizes;
    print!(rt; "{name},{states},{limit},{steps},{raises},{digest}")?;
    if timed {
        let rate = (steps as u128 * 1_000_000).checked_div(micros).unwrap_or(0);
        print!(rt; ",{micros},{rate}")?;
    }
    println!(rt)?;
    Ok(())
}

// The three scales at one size, over one worklist.
fn measure_scales<K: Worklist>(
    rt: &HostRuntime,
    names: [&str; 3],
    sizes: Sizes,
    worklist: &mut K,
    timed: bool,
) -> anyhow::Result<()> {
    measure::<YesNo, K>(rt, names[0], sizes, worklist, timed)?;
    measure::<Option<Minutes>, K>(rt, names[1], sizes, worklist, timed)?;
    measure::<Option<Flags>, K>(rt, names[2], sizes, worklist, timed)
}

// Without an argument, only what is the same in every run; with one, the times too.
fn main(rt: HostRuntime) -> anyhow::Result<()> {
    let timed = env::args(&rt)?.count() > 1;
    let mut marks = MarkTable::new();
    let mut slots = [0; 512];
    let mut ring = Ring::new(&mut slots);
    let with_marks = ["yes,marks", "minutes,marks", "flags,marks"];
    let with_ring = ["yes,ring", "minutes,ring", "flags,ring"];
    measure_scales(&rt, with_marks, sizes(32, 60, 512), &mut marks, timed)?;
    for size in [
        sizes(32, 60, 512),
        sizes(32, 60, 256),
        sizes(32, 60, 128),
        sizes(16, 30, 512),
        sizes(8, 15, 512),
    ] {
        measure_scales(&rt, with_ring, size, &mut ring, timed)?;
    }
    Ok(())
}

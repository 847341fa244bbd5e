#![tactic(auto)]

mod lines;
mod session;

use scale::minutes::Minutes;
use session::run;
use std::io;
use worklist::mark_table::MarkTable;

fn main(rt: HostRuntime) -> io::Result<()> {
    guarantee::promises_hold::<Option<Minutes>, MarkTable>();
    worked::rows_hold();
    worked::smallest_first_settles::<Option<Minutes>>();
    match run() {
        Ok(lines) => {
            for line in &lines {
                println!(rt; "{line}")?;
            }
            Ok(())
        }
        Err(refusal) => {
            let number = refusal.number();
            println!(rt; "refused,{number}")
        }
    }
}

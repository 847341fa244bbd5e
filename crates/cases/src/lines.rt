use checker::answers::{Answer, Report};
use scale::minutes::Minutes;
use std::fmt;

// What a call of the session answered, as a line to print.
#[derive(Clone, Copy, Debug)]
pub enum Line {
    Settle(Report),
    Query(Answer<Option<Minutes>>),
}

impl fmt::Display for Line {
    fn fmt<W: fmt::Write>(&self, f: &mut fmt::Formatter<W>) -> fmt::Result {
        match self {
            Line::Settle(report) => {
                let Report {
                    steps,
                    raises,
                    settled,
                } = *report;
                write!(f, "settle,{steps},{raises},{}", settled as u8)
            }
            Line::Query(answer) => {
                let settled = answer.settled as u8;
                match answer.weight {
                    Some(minutes) => write!(f, "query,{},{settled}", minutes.count()),
                    None => write!(f, "query,-,{settled}"),
                }
            }
        }
    }
}

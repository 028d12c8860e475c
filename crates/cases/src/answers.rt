// An answer of any operation, as a word and a number. No Result: that a run ended or was spent is neither a value nor a failure.
use definition::refusal::Refusal;
use definition::{Handover, RunAnswer, StatementAnswer};
use std::fmt;

#[derive(Clone, Copy, Debug, PartialEq, Eq)]
pub enum Said {
    Accepted(u32),
    Ended,
    Spent,
    Refused(u8),
    Builtin(u32),
    Opcode(u32),
}

impl From<Handover> for Said {
    fn from(handover: Handover) -> Said {
        match handover {
            Handover::Builtin(n) => Said::Builtin(n),
            Handover::Opcode(n) => Said::Opcode(n),
        }
    }
}

impl From<Result<(), Refusal>> for Said {
    fn from(answer: Result<(), Refusal>) -> Said {
        match answer {
            Ok(()) => Said::Accepted(0),
            Err(refusal) => Said::Refused(refusal.number()),
        }
    }
}

// What a raw read answers.
impl From<Result<u32, Refusal>> for Said {
    fn from(answer: Result<u32, Refusal>) -> Said {
        match answer {
            Ok(value) => Said::Accepted(value),
            Err(refusal) => Said::Refused(refusal.number()),
        }
    }
}

impl From<StatementAnswer> for Said {
    fn from(answer: StatementAnswer) -> Said {
        match answer {
            StatementAnswer::Completed => Said::Accepted(0),
            StatementAnswer::Refused(n) => Said::Refused(n),
            StatementAnswer::HandedOver(handover) => handover.into(),
        }
    }
}

impl From<RunAnswer> for Said {
    fn from(answer: RunAnswer) -> Said {
        match answer {
            RunAnswer::Ended => Said::Ended,
            RunAnswer::Spent => Said::Spent,
            RunAnswer::Refused(n) => Said::Refused(n),
            RunAnswer::HandedOver(handover) => handover.into(),
        }
    }
}

impl fmt::Display for Said {
    fn fmt<W: fmt::Write>(&self, f: &mut fmt::Formatter<W>) -> fmt::Result {
        match self {
            Said::Accepted(n) => write!(f, "accepted {n}"),
            Said::Ended => write!(f, "ended 0"),
            Said::Spent => write!(f, "spent 0"),
            Said::Refused(n) => write!(f, "refused {n}"),
            Said::Builtin(n) => write!(f, "builtin {n}"),
            Said::Opcode(n) => write!(f, "opcode {n}"),
        }
    }
}

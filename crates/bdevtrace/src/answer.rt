//! What the program ends with.
ghost use Rattle.std.specs.Prelude.{◌≡◌};
ghost use Rattle.bdevtrace.specs.Answer.{ended_status, ended_text, answer_text};

use bd_top::Fault;
use std::fmt;

/// The exit status, and the fault whose line standard error gets, if there is one. It prints as
/// that line with its line feed, or as nothing.
#[derive(Drop)]
pub(crate) struct Answer {
    pub status: u8,
    pub fault: Option<Fault>,
}

/// The answer to what was asked: its status where it was done, the fault's status and line
/// otherwise. It takes no memory.
pub(crate) fn answer_to(ended: Result<u8, Fault>) -> Answer
    ensures status { result.status ≡ ended_status ended }
    ensures text { answer_text result ≡ ended_text ended }
{
    match ended {
        Ok(status) => Answer {
            status,
            fault: None,
        },
        Err(fault) => Answer {
            status: fault.status(),
            fault: Some(fault),
        },
    }
}

impl fmt::Display for Answer {
    ghost use Rattle.std.specs.Prelude.{Some};
    ghost use Rattle.bdevtrace.specs.Answer.{answer_text};

    ghost output = { λ answer. Some (answer_text answer) };

    fn fmt<W: fmt::Write>(&self, f: &mut fmt::Formatter<W>) -> fmt::Result {
        match &self.fault {
            None => Ok(()),
            Some(Fault::Usage) => write!(
                f,
                "usage: bdevtrace run CONFIG JOBS or exercise N; options --threads N --reactors N --schedule N\n"
            ),
            Some(fault) => write!(f, "{fault}\n"),
        }
    }
}

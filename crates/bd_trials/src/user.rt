//! What lines wait for. A case has the lines of a script, which commas part, and after a colon what
//! the thread sees; the answer has the moves, up to the first that waits.
use crate::words::{first_word, number, op, small};
use bd_base::{ClaimKind, Job, Line, Name, NameList, OutOfMemory, Rows, View};
use bd_rule_lines::{Move, User};
use std::alloc::Global;

pub(crate) fn answer(alloc: Global, case: &str) -> Result<String, OutOfMemory> {
    let (script, seen) = case.split_once(": ").unwrap_or((case, ""));
    let mut lines = Rows::new(alloc);
    for line in script.split(", ") {
        let job = job(alloc, line)?;
        lines.push(Line { number: 7, job })?;
    }
    moves(alloc, lines.as_slice(), &view(alloc, seen)?)
}

// The command of a line, of which a submission is of block 0 on the handle `h`.
fn job(alloc: Global, line: &str) -> Result<Job, OutOfMemory> {
    let (word, rest) = first_word(line);
    let handle = Name::from_slice(alloc, b"h")?;
    Ok(match word {
        "wait" => Job::Wait,
        "sleep" => Job::Sleep(number(rest)),
        "await" => Job::Await(Name::from_slice(alloc, b"mark")?),
        "gone" => Job::Gone { handle },
        "close" => Job::Close { handle },
        "claim" => Job::Claim {
            handle,
            kind: ClaimKind::Exclusive,
        },
        "remove" => Job::Remove {
            dev: Name::from_slice(alloc, b"Malloc0")?,
        },
        "resize" => Job::Resize {
            dev: Name::from_slice(alloc, b"Malloc0")?,
            blocks: number(rest),
        },
        "sized" => Job::Sized {
            handle,
            blocks: number(rest),
        },
        "post" => Job::Post(Name::from_slice(alloc, b"mark")?),
        _ => match op(word) {
            Some(op) => Job::Submit {
                handle,
                op,
                lba: 0,
                count: 1,
            },
            None => Job::Open {
                handle,
                dev: Name::from_slice(alloc, b"Malloc0")?,
                write: true,
            },
        },
    })
}

// What a thread sees, by its words: the moment, the one at which the line was met, how many requests
// are open, and whether the mark was taken, the handle is bound, its device is gone, and how many blocks that has
// if the handle is open.
fn view(alloc: Global, seen: &str) -> Result<View, OutOfMemory> {
    let mut view = View {
        now: 0,
        met: 0,
        requests: 0,
        marks: other(alloc)?,
        gone: other(alloc)?,
        bound: other(alloc)?,
        sizes: Rows::new(alloc),
    };
    for part in seen.split(", ") {
        let (word, rest) = first_word(part);
        match word {
            "now" => view.now = number(rest),
            "met" => view.met = number(rest),
            "requests" => view.requests = small(rest),
            "taken" => view.marks.push(Name::from_slice(alloc, b"mark")?)?,
            "bound" => view.bound.push(Name::from_slice(alloc, b"h")?)?,
            "size" => {
                let handle = Name::from_slice(alloc, b"h")?;
                view.sizes.push((handle, number(rest)))?;
            }
            "gone" => view.gone.push(Name::from_slice(alloc, b"h")?)?,
            _ => (),
        }
    }
    Ok(view)
}

// A list of a name that no line has.
fn other(alloc: Global) -> Result<NameList, OutOfMemory> {
    let mut names = NameList::new(alloc);
    names.push(Name::from_slice(alloc, b"other")?)?;
    Ok(names)
}

// The moves of these lines, up to the first that waits, and two after the last line.
fn moves(alloc: Global, lines: &[Line], view: &View) -> Result<String, OutOfMemory> {
    let mut user = User::new(lines);
    let mut told = String::from_str(alloc, "moves")?;
    for _ in lines {
        match user.next(view) {
            Move::Do(job) => write!(told, " {}", job.word())?,
            Move::Blocked(why) => {
                write!(told, " blocked by {why:?}")?;
                return Ok(told);
            }
            Move::End => told.push_str(" end too soon")?,
        }
        user.did();
    }
    for _ in 0..2 {
        let end = if matches!(user.next(view), Move::End) {
            "end"
        } else {
            "more"
        };
        write!(told, " {end}")?;
        user.did();
    }
    Ok(told)
}

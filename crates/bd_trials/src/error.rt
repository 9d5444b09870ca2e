//! Injected errors: they are set for types of request, and each request takes what is left for its.
use crate::steps::{Subject, said};
use crate::words::{op, small};
use bd_base::{ErrKind, Injection, Injections, IoSet, OutOfMemory};
use bd_error::InjectionCalls;
use std::alloc::Global;

pub(crate) fn none_left() -> Injections {
    let none = Injection {
        kind: ErrKind::Failure,
        left: 0,
    };
    Injections {
        read: none,
        write: none,
        zeroes: none,
        unmap: none,
        flush: none,
    }
}

// Types of request by their letters.
fn types(letters: &str) -> IoSet {
    IoSet {
        read: letters.contains('r'),
        write: letters.contains('w'),
        zeroes: letters.contains('z'),
        unmap: letters.contains('u'),
        flush: letters.contains('f'),
    }
}

fn kind(word: &str) -> ErrKind {
    match word {
        "pending" => ErrKind::Pending,
        "corrupt" => ErrKind::Corrupt,
        _ => ErrKind::Failure,
    }
}

impl Subject for Injections {
    fn step(&mut self, alloc: Global, words: &[&str]) -> Result<String, OutOfMemory> {
        match words {
            ["set", letters, word, count] => {
                self.set(types(letters), kind(word), small(count));
                said(alloc, "done")
            }
            ["left"] => {
                let (read, unmap, flush) = (self.read.left, self.unmap.left, self.flush.left);
                Ok(format!(in alloc; "r {read} u {unmap} f {flush}")?)
            }
            [word] => match op(word) {
                Some(op) => {
                    let decision = self.take(&op);
                    Ok(format!(in alloc; "{decision:?}")?)
                }
                None => said(alloc, "no such step"),
            },
            _ => said(alloc, "no such step"),
        }
    }
}

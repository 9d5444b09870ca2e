//! Locks of ranges and the pieces that they hold back. A case begins with none.
use crate::steps::{Subject, said, told};
use crate::words::{number, request, small};
use bd_base::OutOfMemory;
use bd_range::Locks;
use std::alloc::Global;

pub(crate) fn answer(alloc: Global, case: &str) -> Result<String, OutOfMemory> {
    told(alloc, &mut Locks::new(alloc), case)
}

impl Subject for Locks {
    fn step(&mut self, alloc: Global, words: &[&str]) -> Result<String, OutOfMemory> {
        match words {
            ["may", req, first, count] => {
                let may = self.may_lock(request(req), number(first), number(count));
                Ok(format!(in alloc; "{may}")?)
            }
            ["lock", req, first, count] => {
                match self.lock(request(req), number(first), number(count)) {
                    Ok(()) => said(alloc, "done"),
                    Err(_) => said(alloc, "refused"),
                }
            }
            ["unlock", req, first] => {
                self.unlock(request(req), number(first));
                said(alloc, "done")
            }
            ["stops", req, first, count] => {
                let stops = self.stops(request(req), number(first), number(count));
                Ok(format!(in alloc; "{stops}")?)
            }
            ["hold", req, k, first, count] => {
                self.hold(request(req), small(k), number(first), number(count))?;
                said(alloc, "done")
            }
            ["first"] => match self.first_free() {
                Some((req, k)) => Ok(format!(in alloc; "{}.{} {k}", req.thread, req.seq)?),
                None => said(alloc, "none"),
            },
            ["admit", req, k] => {
                self.admit(request(req), small(k));
                said(alloc, "done")
            }
            ["held"] => {
                let held = self.held();
                Ok(format!(in alloc; "{held}")?)
            }
            ["empty"] => {
                let empty = self.is_empty();
                Ok(format!(in alloc; "{empty}")?)
            }
            ["copy"] => {
                *self = self.copy()?;
                said(alloc, "done")
            }
            _ => said(alloc, "no such step"),
        }
    }
}

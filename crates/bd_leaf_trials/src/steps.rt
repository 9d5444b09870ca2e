//! Subjects that are told steps in words.
use bd_base::OutOfMemory;
use std::alloc::Global;

/// A subject that takes one step after the other, and answers each.
pub(crate) trait Subject {
    /// Takes a step, which has these words.
    fn step(&mut self, alloc: Global, words: &[&str]) -> Result<String, OutOfMemory>;
}

/// The answers of a subject to steps that semicolons part.
pub(crate) fn told<S: Subject>(
    alloc: Global,
    subject: &mut S,
    steps: &str,
) -> Result<String, OutOfMemory> {
    let mut told = String::new(alloc);
    for step in steps.split(';') {
        if !told.is_empty() {
            told.push_str("; ")?;
        }
        let words: Vec<&str> = step.split_whitespace().collect(alloc)?;
        told.push_str(subject.step(alloc, words.as_slice())?.as_str())?;
    }
    Ok(told)
}

/// An answer that is always the same.
pub(crate) fn said(alloc: Global, answer: &str) -> Result<String, OutOfMemory> {
    Ok(String::from_str(alloc, answer)?)
}

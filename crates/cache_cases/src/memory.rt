//! The memory that cases ask and change, and how it is made once more.
//!
//! - `keep` keeps the cases since the last `caches`, and that one.
//! - `again VERB ARGUMENTS` makes the memory anew by the kept cases, and is what the verb then answers.

use crate::arguments::verb_of;
use crate::{access_verbs, content_verbs};
use line_moves::Hier;
use std::alloc::{AllocError, Global};

/// RAM and the caches, and a line for each case that was asked of them.
#[derive(Drop)]
pub struct Memory {
    hier: Option<Hier>,
    since: String,
    kept: String,
}

impl Memory {
    /// Before any case.
    pub fn new(alloc: Global) -> Self {
        Memory {
            hier: None,
            since: String::new(alloc),
            kept: String::new(alloc),
        }
    }

    /// Appends the answer of a case, and says whether its verb is one of those that ask or change the memory.
    pub fn put_answer(
        &mut self,
        alloc: Global,
        case: &str,
        out: &mut String,
    ) -> Result<bool, AllocError> {
        let (verb, arguments) = verb_of(case);
        match verb {
            "keep" => self.keep(out)?,
            "again" => return self.put_again(alloc, arguments, out),
            _ => {
                self.note(verb, case)?;
                return put_called(alloc, &mut self.hier, case, out);
            }
        }
        Ok(true)
    }

    fn keep(&mut self, out: &mut String) -> Result<(), AllocError> {
        self.kept.clear();
        self.kept.push_str(self.since.as_str())?;
        out.push_str("kept")
    }

    // Notes a case as one of those since the caches were made.
    fn note(&mut self, verb: &str, case: &str) -> Result<(), AllocError> {
        if verb == "caches" {
            self.since.clear();
        }
        self.since.push_str(case)?;
        self.since.push_str("\n")
    }

    fn put_again(
        &mut self,
        alloc: Global,
        case: &str,
        out: &mut String,
    ) -> Result<bool, AllocError> {
        let mut unread = String::new(alloc);
        for kept in self.kept.as_str().lines() {
            put_called(alloc, &mut self.hier, kept, &mut unread)?;
        }
        put_called(alloc, &mut self.hier, case, out)
    }
}

// Appends what the call of a case's verb answers, and says whether it is one of these.
fn put_called(
    alloc: Global,
    hier: &mut Option<Hier>,
    case: &str,
    out: &mut String,
) -> Result<bool, AllocError> {
    let (verb, arguments) = verb_of(case);
    let is_known = access_verbs::put_answer(alloc, hier, verb, arguments, out)?
        || content_verbs::put_answer(hier, verb, arguments, out)?;
    Ok(is_known)
}

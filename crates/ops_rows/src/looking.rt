//! A view, and what is done with it.

use crate::{asked, found, many, watched};
use row_files::{Rows, Words};
use std::alloc::Global;
use zn_view::View;
use zx_base::Memory;

/// The view that the earlier rows left, and the revision at which the next keys are found.
#[derive(Drop)]
pub struct Looking {
    pub view: View,
    revision: i64,
}

impl Rows for Looking {
    fn found(&mut self, alloc: Global, left: &str) -> Result<Option<String>, Memory> {
        let mut words = Words::new(left);
        let Some(kind) = words.word() else {
            return Ok(None);
        };
        let found = self.of_kind(alloc, kind, &mut words)?;
        if words.word().is_some() {
            return Ok(None);
        }
        Ok(found)
    }
}

/// The zxid and the number of the last update.
fn last(alloc: Global, view: &View) -> Result<Option<String>, Memory> {
    let (zxid, number) = (view.zxid(), view.number());
    Ok(Some(format!(in alloc; "{zxid} {number}")?))
}

impl Looking {
    /// Before the first row.
    pub fn new(alloc: Global) -> Looking {
        Looking {
            view: View::empty(alloc),
            revision: 0,
        }
    }

    /// What a row of this kind comes to, by its other words.
    fn of_kind(
        &mut self,
        alloc: Global,
        kind: &str,
        words: &mut Words,
    ) -> Result<Option<String>, Memory> {
        match kind {
            "view" => {
                self.view = View::empty(alloc);
                self.at(alloc, words)
            }
            "at" => self.at(alloc, words),
            "saw" => found::saw(alloc, &mut self.view, self.revision, words),
            "other" => found::other(alloc, &mut self.view, self.revision, words),
            "absent" => found::absent(alloc, &mut self.view, self.revision, words),
            "listed" => found::listed(alloc, &mut self.view, self.revision, words),
            "last" => last(alloc, &self.view),
            "needs" => asked::needed(alloc, &self.view, words),
            "asks" => asked::read(alloc, &self.view, words),
            "decide" => asked::decided(alloc, &self.view, words),
            "finish" => asked::finished(alloc, &self.view, words),
            "seen" => watched::seen(alloc, &self.view, words),
            "many" => many::counted(alloc, words),
            _ => Ok(None),
        }
    }

    fn at(&mut self, alloc: Global, words: &mut Words) -> Result<Option<String>, Memory> {
        let Some(revision) = words.long() else {
            return Ok(None);
        };
        self.revision = revision;
        Ok(Some(format!(in alloc; "{revision}")?))
    }
}

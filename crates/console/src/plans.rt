use crate::outcomes::word_written;
use plan::file::FilePlan;
use script::hex::decode;
use std::alloc::{AllocError, Global};
use std::collections::BTreeMap;
use wording::answer::{Answer, word_answer};

/// The plan files by name.
#[derive(Drop)]
pub(crate) struct Plans {
    heap: Global,
    files: BTreeMap<Vec<u8>, Vec<u8>>,
}

impl Plans {
    /// No plans.
    pub(crate) fn new(heap: Global) -> Plans {
        Plans {
            heap,
            files: BTreeMap::new(heap),
        }
    }

    /// The plan of the name. A file that is bound was accepted, so it is read again.
    pub(crate) fn find(&self, name: &[u8]) -> Option<FilePlan<'_>> {
        let file = self.files.get(name)?;
        FilePlan::read(file.as_slice()).ok()
    }

    /// Binds the name to a plan file, if that is accepted; a refused one leaves the former binding.
    pub(crate) fn bind(
        &mut self,
        name: &[u8],
        hex: &[u8],
        out: &mut Vec<u8>,
    ) -> Result<(), AllocError> {
        let file = decode(self.heap, hex)?;
        if let Err(refusal) = FilePlan::read(file.as_slice()) {
            return word_answer(out, Answer::Refused(refusal));
        }
        self.files.insert(name.to_vec(self.heap)?, file)?;
        word_answer(out, Answer::Done)
    }

    /// Answers the named plan's file, written from the plan that was read.
    pub(crate) fn rewrite(&self, name: &[u8], out: &mut Vec<u8>) -> Result<(), AllocError> {
        match self.find(name) {
            Some(plan) => word_written(self.heap, &plan, usize::MAX, out),
            None => word_answer(out, Answer::UnknownPlan),
        }
    }
}

/// Something for each of the two plans of a question.
#[derive(Clone, Copy, Drop)]
pub(crate) struct Both<T> {
    pub programme: T,
    pub rule: T,
}

impl<T> Both<T> {
    /// The same behind references.
    pub(crate) fn as_ref(&self) -> Both<&T> {
        Both {
            programme: &self.programme,
            rule: &self.rule,
        }
    }
}

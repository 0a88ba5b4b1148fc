ghost use Rattle.wording.specs.Texts.{Appends};
ghost use Rattle.wording.specs.Notices.{notice_text};

use crate::text::push_text;
use std::alloc::AllocError;

/// What is answered about searches where there is no verdict to tell.
#[derive(Clone, Copy, Debug, PartialEq, Eq)]
pub enum Notice {
    /// There was no search yet.
    NoSearch,
    /// The valves are released.
    Granted,
}

/// Appends the notice.
pub fn word_notice(out: &mut Vec<u8>, notice: Notice) -> Result<(), AllocError>
    ensures { Appends result out.old.items out.new.items (notice_text notice) }
{
    match notice {
        Notice::NoSearch => push_text(out, b"none"),
        Notice::Granted => push_text(out, b"granted"),
    }
}

//! The acts of a session, and why a script gives none.

use branch_tree::Name;
use market_rules::Edit;
use market_types::Sequence;
use thiserror::Error;

/// One act of a session over a study's tree of branches. Branches are told by their names.
#[derive(Drop)]
pub enum Act {
    /// A new branch becomes the last of the tree.
    Fork {
        /// Its name.
        name: Name,
        /// The branch that it leaves.
        parent: Name,
        /// The event number at which it leaves: at most 9,999,999.
        at: u32,
        /// What it changes there, in order: at most 16 edits.
        edits: Sequence<Edit>,
    },
    /// The last branch leaves the tree.
    Undo,
    /// The edits of a branch are replaced.
    Edit {
        /// The branch's name.
        name: Name,
        /// What it changes where it leaves its parent, in order: at most 16 edits.
        edits: Sequence<Edit>,
    },
    /// The state of a branch at an event number is told.
    Rewind {
        /// The branch's name.
        name: Name,
        /// The event number: at most 9,999,999.
        event: u32,
    },
    /// The end of a branch's full run is told.
    Close {
        /// The branch's name.
        name: Name,
    },
    /// The value of each probe over a branch's full run is told.
    Values {
        /// The branch's name.
        name: Name,
    },
}

/// Why a script gives no acts.
#[derive(Clone, Copy, PartialEq, Eq, Debug, Error)]
pub enum ScriptError {
    /// Its bytes are not UTF-8, or no TOML document.
    #[error("the script is no TOML table")]
    NotToml,
    /// The first bad act, from 0; or 64, where the script hasn't the one key `act` with 1 to 64 tables, or a branch of the study
    /// leaves its parent at a time.
    #[error("act {0} is refused")]
    BadAct(u32),
    /// Want of memory.
    #[error("out of memory")]
    Memory,
}

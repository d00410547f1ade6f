//! The archive (NAR) of a tree in memory, told event by event, and its length and digest.
//!
//! | Module | What is in it |
//! |---|---|
//! | `walk` | the walk that tells a tree's archive |
//! | `node` | what is heard of a tree by itself: a file, a link, or the begin of a folder |
//! | `order` | a folder's members in the order of their names |
//! | `names` | which names they may have |
//! | `outcome` | what came of telling a tree |
//! | `sum` | the length and the digest of an archive |

pub mod names;
pub mod node;
pub mod order;
pub mod outcome;
pub mod sum;
pub mod walk;

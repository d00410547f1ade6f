//! Base-32, store paths and digests: the names of things in a Nix store.
//!
//! | Module | What is in it |
//! |---|---|
//! | `base32` | bytes as base-32 text and back |
//! | `store_dir` | the folder that a store's paths stand in |
//! | `store_path` | store paths: parsed, lent, copied, compared |
//! | `path_order` | paths in rising order |
//! | `making` | the path of a type, an inner digest, a folder and a name |
//! | `name` | the bytes of names and components |
//! | `digest` | digests of a file's bytes, and their text |
//! | `method` | digests of whole outputs, and what of them is hashed |
//! | `fault` | why a text is no name, no path or no base-32 text |
//! | `laws`, `path_laws` | laws over the definitions that contracts cite |
#![tactic(auto)]

mod base32;
mod digest;
mod fault;
pub mod laws;
mod making;
mod method;
mod name;
pub mod path_laws;
mod path_order;
mod store_dir;
mod store_path;

pub use base32::{from_base32, to_base32};
pub use digest::{Algorithm, Digest};
pub use fault::NameFault;
pub use making::{fold20, make_named_path, make_path};
pub use method::{Method, MethodDigest};
pub use name::{is_drv_name, is_name};
pub use path_order::sort_paths;
pub use store_dir::StoreDir;
pub use store_path::{StorePath, known_path, parse_path};

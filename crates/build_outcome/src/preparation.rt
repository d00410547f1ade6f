//! What is prepared for a builder's start from the records of valid paths.

/// A file that lies in a builder's folder before it is started.
#[derive(Debug, Drop)]
pub struct PreparedFile {
    /// Its name in the folder.
    pub name: String,
    /// The bytes that are in it.
    pub contents: Vec<u8>,
}

/// Structured attributes as a builder gets them. Placeholders stand in both texts.
#[derive(Debug, Drop)]
pub struct AttributeTexts {
    /// The text of `.attrs.json`.
    pub json: Vec<u8>,
    /// The text of `.attrs.sh`.
    pub shell: Vec<u8>,
    /// The names of the variables of the caller's environment that the builder of a fixed output
    /// gets.
    pub impure: Vec<String>,
}

/// What is prepared for a builder's start from the records of the paths that its job is built from.
#[derive(Debug, Drop)]
pub enum Prepared {
    /// The attributes are the entries of the derivation's environment, and these are the files that
    /// `exportReferencesGraph` asks for, each name once.
    Entries(Vec<PreparedFile>),
    /// The attributes are structured.
    Structured(AttributeTexts),
}

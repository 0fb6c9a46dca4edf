// A case: a run of the program, and what it is to come to.
use ef_io::Status;

/// A path and the bytes that lie there.
#[derive(Drop)]
pub struct Text {
    pub path: String,
    pub bytes: Vec<u8>,
}

/// What a run is to create.
#[derive(Drop)]
pub enum Wanted {
    /// A file of any text exactly where the status is 0.
    Any,
    /// This file.
    Whole(Text),
    /// A file of this path whose text begins with this one.
    Begun(Text),
}

/// The numbers of the calls that fail, from 1, and how many bytes the output takes.
#[derive(Drop)]
pub struct Trouble {
    pub reads: Vec<u64>,
    pub writes: Vec<u64>,
    pub prints: Vec<u64>,
    pub room: usize,
}

/// The text of a form, and the nodes of its tree.
#[derive(Drop)]
pub struct Tree {
    pub form: Vec<u8>,
    pub nodes: Vec<u8>,
}

/// A case, which begins in this line of its file.
#[derive(Drop)]
pub struct Case {
    pub line: u64,
    pub name: String,
    pub words: Vec<String>,
    pub files: Vec<Text>,
    pub trouble: Trouble,
    pub status: Status,
    pub printed: Vec<u8>,
    pub created: Wanted,
    /// A form that is read in place of a run.
    pub tree: Option<Tree>,
    /// Whether the written functions are weighed against their source.
    pub is_bounded: bool,
}

// Where text is written.
ghost use Rattle.std.specs.Prelude.{◌≡◌, ◌≤◌, Bool, true, false, None, length};
ghost use Rattle.ef_io.specs.Sink.{SinkView, Writes, HasWriteCause, FitsIn, Creates, Stays};

/// A write or a creation that was refused.
#[derive(Clone, Copy, Debug, PartialEq, Eq)]
pub struct Failed;

/// What takes bytes while it is open.
pub trait Sink {
    /// What the object shows: the bytes written and the room left, each where it tells it, the count of faults,
    /// whether it is open, and the path created.
    ghost seen: { Self → SinkView };

    /// Appends a front part of the piece, and answers its length, which is 0 for an empty piece alone.
    fn write(&mut self, piece: &[u8]) -> Result<usize, Failed>
        requires { (seen self.old).is_open ≡ true }
        ensures stays { Stays (seen self.old) (seen self.new) }
        ensures writes { Writes (seen self.old) (seen self.new) piece.now result }
        ensures cause { HasWriteCause (seen self.old) (seen self.new) result }
        ensures fits { FitsIn (seen self.old).room (length piece.now) result };
}

/// A sink that is opened by the creation of its file.
pub trait Output: Sink {
    /// Creates the file of this path, which is empty.
    fn create(&mut self, path: &str) -> Result<(), Failed>
        requires { (Self.seen self.old).is_open ≡ false }
        ensures creates { Creates (Self.seen self.old) (Self.seen self.new) path.now result }
        ensures cause { HasWriteCause (Self.seen self.old) (Self.seen self.new) result };

    /// While it is not open, nothing is created.
    ghost not_created: { (s : Self) → (Self.seen s).is_open ≡ false → (Self.seen s).created ≡ None };
}

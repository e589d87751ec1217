// How the bytes of a link in memory come.
ghost use Rattle.std.specs.Prelude.{◌≡◌, ◌<◌, ◌↔◌, IsNone, IfSome};
ghost use Rattle.dkv_link.specs.Paces.{new_pace, IsQuietRead, piece_of, after_read};

use dkv_io::raised;

/// How the bytes of a link in memory come: which reads are quiet, how many bytes each read gives at most, and how many reads
/// there were.
#[derive(Drop)]
pub struct Pace {
    /// The reads of these numbers, from 0 on, are quiet.
    pub quiets: Vec<u64>,
    /// The read of each number gives so many bytes at most, where 0 counts as 1. Behind the last there is no bound.
    pub pieces: Vec<u64>,
    /// Stands still at the last `u64`.
    pub reads: u64,
}

impl Pace {
    /// There was no read yet.
    pub fn new(quiets: Vec<u64>, pieces: Vec<u64>) -> Pace
        ensures { result ≡ new_pace quiets pieces }
    {
        Pace {
            quiets,
            pieces,
            reads: 0,
        }
    }

    // How many bytes the read that comes gives at most.
    fn piece(&self) -> u64
        ensures piece { result ≡ piece_of self.now }
        ensures some { 0 < result }
    {
        match self.pieces.get(self.reads as usize) {
            Some(piece) => 1.max(*piece),
            None => u64::MAX,
        }
    }

    // Counts a read, and says how many bytes it gives at most, or None where it is quiet.
    pub(crate) fn next_piece(&mut self) -> Option<u64>
        ensures quiet { IsNone result ↔ IsQuietRead self.old }
        ensures piece { IfSome result (λ piece. piece ≡ piece_of self.old) }
        ensures some { IfSome result (λ piece. 0 < piece) }
        ensures counted { self.new ≡ after_read self.old }
    {
        let piece = self.piece();
        let read = self.reads;
        self.reads = raised(self.reads);
        if self.quiets.contains(&read) {
            return None;
        }
        Some(piece)
    }
}

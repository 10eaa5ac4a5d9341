// Files as a program sees them, and reading a whole one.
ghost use Rattle.std.specs.Prelude.{◌≡◌, ℕ, ◌+◌, ◌<◌, ◌≤◌, length, take, Option, Some, None, IfOk, IsErrOf, vec_len, List};
ghost use Rattle.bridge_io.specs.Outside.{Told, content_of, Rose, RoseBy, NeverFalls, GivesFrom};

use std::alloc::Global;
use thiserror::Error;

/// Why a read gave no bytes.
#[derive(Clone, Copy, Debug, PartialEq, Eq, Error)]
pub enum ReadAnswer {
    /// There is no file of that name.
    #[error("no such file")]
    Missing,
    /// The read failed.
    #[error("the read failed")]
    Failed,
}

/// Files under names. A map of them may be told, which no read changes.
pub trait Files {
    /// The files, where they are told.
    ghost told: { Self → Option Told };

    /// How many reads failed.
    ghost faults: { Self → ℕ };

    /// How many reads were of a name that isn't there.
    ghost absences: { Self → ℕ };

    /// How many bytes were given.
    ghost given: { Self → ℕ };

    /// How many reads were made, where that is counted.
    ghost calls: { Self → ℕ };

    /// Puts bytes of a file, from `at` on, at the front of `buf`. Answers how many: 0 is the end.
    fn read(&mut self, name: &str, at: u64, buf: &mut [u8]) -> Result<usize, ReadAnswer>
        requires { 0 < length buf.old }

        ensures told { told self.new ≡ told self.old }
        ensures faults { NeverFalls (faults self.old) (faults self.new) }
        ensures absences { NeverFalls (absences self.old) (absences self.new) }
        ensures given { NeverFalls (given self.old) (given self.new) }
        ensures calls { calls self.new ≤ calls self.old + 1 }

        ensures within { IfOk result (λ n. n ≤ length buf.old) }
        ensures raises { IfOk result (λ n. RoseBy n (given self.old) (given self.new)) }
        ensures bytes { (map : Told) → told self.old ≡ Some map → IfOk result (λ n.
            (content : List ℕ) × (content_of map name.now ≡ Some content) × GivesFrom content at n (take n buf.new)) }

        ensures failed { IsErrOf result ReadAnswer.Failed → Rose (faults self.old) (faults self.new) }
        ensures missing { IsErrOf result ReadAnswer.Missing → Rose (absences self.old) (absences self.new) }

        // With `bytes`: missing exactly where the name isn't there and the read doesn't fail.
        ensures absent { (map : Told) → told self.old ≡ Some map →
            IsErrOf result ReadAnswer.Missing → content_of map name.now ≡ None };
}

/// Why a file wasn't gathered.
#[derive(Clone, Copy, Debug, PartialEq, Eq, Error)]
pub enum GatherFault {
    /// A read failed.
    #[error("a read failed")]
    Read,
    /// There is no file of that name.
    #[error("no such file")]
    Missing,
    /// The file is longer than the limit.
    #[error("the file is too large")]
    TooLarge,
    /// Memory ran out.
    #[error("out of memory")]
    Memory,
}

// How many bytes are read at a time.
const PIECE: usize = 8192;

/// The bytes of a whole file, of at most `limit`.
pub fn gather<F: Files>(
    alloc: Global,
    files: &mut F,
    name: &str,
    limit: u64,
) -> Result<Vec<u8>, GatherFault>
    requires { limit ≤ 16777216 }

    ensures told { F.told files.new ≡ F.told files.old }
    ensures faults { NeverFalls (F.faults files.old) (F.faults files.new) }
    ensures absences { NeverFalls (F.absences files.old) (F.absences files.new) }
    ensures given { NeverFalls (F.given files.old) (F.given files.new) }
    ensures turns { F.calls files.new ≤ F.calls files.old + (limit + 2) }

    ensures within { IfOk result (λ bytes. vec_len bytes ≤ limit) }
    ensures raises { IfOk result (λ bytes. RoseBy (vec_len bytes) (F.given files.old) (F.given files.new)) }
    ensures content { (map : Told) → F.told files.old ≡ Some map →
        IfOk result (λ bytes. content_of map name.now ≡ Some bytes.items) }

    ensures read { IsErrOf result GatherFault.Read → Rose (F.faults files.old) (F.faults files.new) }
    ensures missing { IsErrOf result GatherFault.Missing → Rose (F.absences files.old) (F.absences files.new) }
    ensures too_large { IsErrOf result GatherFault.TooLarge →
        RoseBy (limit + 1) (F.given files.old) (F.given files.new) }

    // With `content`: each answer comes exactly where it should, up to `Read` and `Memory`.
    ensures absent { (map : Told) → F.told files.old ≡ Some map →
        IsErrOf result GatherFault.Missing → content_of map name.now ≡ None }
    ensures long { (map : Told) → F.told files.old ≡ Some map → IsErrOf result GatherFault.TooLarge →
        (content : List ℕ) × (content_of map name.now ≡ Some content) × (limit < length content) }
{
    let mut bytes = Vec::new(alloc);
    let mut piece = [0; PIECE];
    for _turn in 0..limit + 2 {
        let at = bytes.len() as u64;
        let left = (limit - at) as usize;
        let want = PIECE.min(left + 1);
        let n = match files.read(name, at, &mut piece[..want]) {
            Ok(n) => n,
            Err(ReadAnswer::Missing) => return Err(GatherFault::Missing),
            Err(ReadAnswer::Failed) => return Err(GatherFault::Read),
        };
        if n == 0 {
            return Ok(bytes);
        }
        if n > left {
            return Err(GatherFault::TooLarge);
        }
        if bytes.extend_from_slice(&piece[..n]).is_err() {
            return Err(GatherFault::Memory);
        }
    }
    unreachable!()
}

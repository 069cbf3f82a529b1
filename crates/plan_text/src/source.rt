// What a plan text is read from, piece by piece.
ghost use Rattle.std.specs.Io.KnownBytes.{Consumes, IsAtEnd};
ghost use Rattle.std.specs.Prelude.{IfOk, List, ℕ, ◌++◌};
ghost use Rattle.plan_lines.specs.Pieces.{IsReady, IsRead};

use plan_lines::Reading;
use std::io;
use std::io::Read;

// How many bytes are read at once.
const PIECE: usize = 4096;

// Reads until the input ends. Of a reader that says what it has left, the text goes on with just that.
pub fn read_all<R: Read>(input: &mut R, reading: &mut Reading) -> io::Result<()>
    requires { IsReady reading.old }
    ensures read { IfOk result (λ _. (text : List ℕ) → IsRead text reading.old
        → (bytes : List ℕ) × Consumes (R.remaining input.old) (R.remaining input.new) bytes × IsRead (text ++ bytes) reading.new) }
    ensures end { IfOk result (λ _. IsAtEnd (R.remaining input.new)) }
{
    let mut piece = [0u8; PIECE];
    // An input that never ends is given up in the end.
    for _ in 0..u64::MAX {
        let n = input.read(&mut piece)?;
        if n == 0 {
            return Ok(());
        }
        reading.take(&piece[..n]);
    }
    Err(io::ErrorKind::InvalidData.into())
}

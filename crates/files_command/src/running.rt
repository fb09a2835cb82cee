//! A run of the program.

ghost use Rattle.std.specs.Prelude.{◌≡◌, ◌≢◌, ◌≤◌, ◌⊎◌, ◌++◌, ◌∷◌, [], Err, IsTrue, IsOk};
ghost use Rattle.sec_base.specs.Answers.{Rose, Gives};
ghost use Rattle.files_command.specs.Making.{file_of};
ghost use Rattle.files_command.specs.Running.{Writes, Tells};

use crate::making::{DRAWS, make_file};
use crate::refusal::NoFile;
use cli_base::{OUT_OF_MEMORY, say};
use sec_base::{Clock, Draw, Moment, Octets, Sink, Text};
use std::alloc::Global;

/// The line of status 2.
const USAGE: &str =
    "usage: gss_files keytab PRINCIPAL KVNO TYPE KEYHEX | ccache CLIENT SERVER KVNO TYPE KEYHEX HOURS | verifier USER PASSWORD SALTHEX ROUNDS\n";

/// How a run ended, and what its file was made with.
#[derive(Clone, Copy, Debug, PartialEq, Eq)]
pub struct FilesEnd {
    /// The exit status: 0 the file was written, 2 the words are in none of the commands, 6 a sink failed, 8 there was no memory.
    pub status: u8,
    /// The moment that the clock gave.
    pub now: Moment,
    /// The octets that were drawn.
    pub draws: [u8; DRAWS],
}

/// Writes the file on `out`, or says on `err` why there is none. The answer is the status.
fn deliver<O: Sink>(made: Result<Octets, NoFile>, out: &mut O, err: &mut O) -> u8
    ensures made { result ≡ 0 → IsOk made }
    ensures refused { result ≡ 2 → made ≡ Err NoFile.Usage }
    ensures memory { result ≡ 8 → made ≡ Err NoFile.NoMemory }
    ensures always_made { IsOk made → result ≢ 6 → result ≡ 0 }
    ensures always_refused { made ≡ Err NoFile.Usage → result ≢ 6 → result ≡ 2 }
    ensures always_memory { made ≡ Err NoFile.NoMemory → result ≢ 6 → result ≡ 8 }
    ensures fault { result ≡ 6
        → Rose (O.faults out.old) (O.faults out.new) ⊎ Rose (O.faults err.old) (O.faults err.new) }
    ensures wrote { IsTrue (O.tells out.old)
        → Writes (O.written out.old) (O.written out.new) result made }
    ensures told { IsTrue (O.tells err.old) → Tells (O.written err.old) (O.written err.new) result }
{
    match made {
        Ok(file) => match out.write(file.as_slice()) {
            Ok(()) => 0,
            Err(_) => 6,
        },
        Err(NoFile::Usage) => say(err, 2, USAGE),
        Err(NoFile::NoMemory) => say(err, 8, OUT_OF_MEMORY),
    }
}

/// Makes the file that the words ask for, at the clock's next moment with the next drawn octets, and writes it on `out`, or says on `err`
/// why there is none.
pub fn run_files<C: Clock, D: Draw, O: Sink>(
    alloc: Global,
    words: &[Text],
    clock: &mut C,
    draw: &mut D,
    out: &mut O,
    err: &mut O,
) -> FilesEnd
    ensures made { result.status ≡ 0 → IsOk (file_of words.now result.now result.draws) }
    ensures refused { result.status ≡ 2
        → file_of words.now result.now result.draws ≡ Err NoFile.Usage }
    ensures always_made { IsOk (file_of words.now result.now result.draws) → result.status ≢ 6
        → result.status ≢ 8 → result.status ≡ 0 }
    ensures always_refused { file_of words.now result.now result.draws ≡ Err NoFile.Usage
        → result.status ≢ 6 → result.status ≢ 8 → result.status ≡ 2 }
    ensures statuses { result.status ≢ 0 → result.status ≢ 2 → result.status ≢ 8
        → result.status ≡ 6 }
    ensures fault { result.status ≡ 6
        → Rose (O.faults out.old) (O.faults out.new) ⊎ Rose (O.faults err.old) (O.faults err.new) }
    // What the two streams gained, where they tell it.
    ensures wrote { IsTrue (O.tells out.old) → Writes (O.written out.old) (O.written out.new)
        result.status (file_of words.now result.now result.draws) }
    ensures told { IsTrue (O.tells err.old)
        → Tells (O.written err.old) (O.written err.new) result.status }
    // The file was made at the clock's next moment and with the next drawn octets.
    ensures clock { IsTrue (C.tells clock.new)
        → C.given clock.new ≡ C.given clock.old ++ result.now ∷ [] }
    ensures draw { IsTrue (D.tells draw.new) → D.given draw.new ≡ D.given draw.old ++ result.draws }
{
    let now = clock.now();
    let mut draws = [0; DRAWS];
    draw.fill(&mut draws);
    let made = make_file(alloc, words, now, &draws);
    let status = deliver(made, out, err);
    FilesEnd { status, now, draws }
}

//! What holds over all runs.
ghost use Rattle.std.specs.Prelude.{◌≡◌, List, [], ◌∷◌, ◌++◌};
ghost use Rattle.replay_journal.specs.Runs.{Step, Runs, Distinct, after_runs};
ghost use Rattle.replay_journal.specs.Files.{counted, blocks, Sized, starts_open};
ghost use Rattle.std.specs.Prelude.{ℕ, drop, false, length};

use crate::disk::Disk;

/// Over every list of runs on one disk that starts empty, whatever crashes at any moment: no two
/// marks that `keep` or `keep_all` answered with Taken are one.
pub fn prove_once<K: Disk>(_disk: &K)
    ensures once { (runs : List (List Step)) → Runs K.Disk [] runs → Distinct (after_runs runs []) }
{}

/// Every file is eight octets, the records that count, and an end that counts for nothing.
pub fn prove_read()
    ensures { (file : List ℕ) → (end : List ℕ) × (drop 8 file ≡ blocks (counted file) ++ end)
        × Sized (counted file) × (starts_open end ≡ false) }
{}

// What words ask for, and when they are refused. The laws have no body that runs.
ghost use Rattle.std.specs.Prelude.{◌≡◌, length};
ghost use Rattle.command_line.specs.Refused.{AreWholeHashes, AskedLaw, HasHashes};
ghost use Rattle.command_line.specs.Single.{OneRequestLaw};
ghost use Rattle.command_line.specs.Taken.{WordsTakenLaw};

use cbdc_types::Hash;
use requests::Request;

/// Words that are refused ask for nothing.
///
/// Words that have a mistake, or a value out of form, ask for nothing, where each hash that a request names has 32 bytes.
pub fn asked_law()
    ensures { AskedLaw }
{}

/// Words ask for one thing.
///
/// Whatever the same words ask for is the same: one command, with the same values, and the same names and places of files.
pub fn one_request_law()
    ensures { OneRequestLaw }
{}

/// What is taken of the words for files is what stands at their places.
///
/// For all words that name `init`, `run` or `audit` without a fault: the mint that clap takes is the first word that is a value of its own; the
/// clients are all such words, in order, or at `audit` all but the first; the verdicts are the value of the first `--verdicts`.
pub fn taken_law()
    ensures { WordsTakenLaw }
{}

// A hash has its 32 bytes.
fn see_hash(hash: &Hash)
    ensures { length hash.now ≡ 32 }
{
    let _bytes = hash.0;
}

// So has each of these.
fn see_hashes(hashes: &[Hash])
    ensures { AreWholeHashes hashes.now }
{
    'hashes: for hash in hashes {
        see_hash(hash);
    }
}

/// So has each that a request names, which the law asks for.
pub fn see_request<'a>(request: &Request<'a>)
    ensures { HasHashes request.now }
{
    if let Request::Status { hashes } = request {
        see_hashes(hashes);
    }
}

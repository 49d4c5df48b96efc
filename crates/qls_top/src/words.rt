//! The words of the command line.
use qls_command::pool;
use qls_model::PoolId;

/// The pool of a run whose words name none.
const DEFAULT_POOL: PoolId = PoolId { part: 1, kib: 2048 };

/// What the words ask for.
#[derive(Clone, Copy, Debug, PartialEq, Eq)]
pub enum Job {
    /// Run the script of the source on the store of the site; the prepared list, where it has no file yet, and each queue whose
    /// command names no pool are in this pool.
    Run { home: PoolId },
    /// Answer what the store means. Nothing is written.
    Show,
}

ghost use Rattle.std.specs.Prelude.{◌≡◌, map, Some, None, MatchOption};
ghost use Rattle.std.specs.String.{string_bytes};
ghost use Rattle.qls_top.specs.Words.{job_of, job_of_word, line_of};

/// The job that the words ask for: `DIR run`, whose pool is partition 1 with files of 2,048 KiB, `DIR run PART KIB`, or
/// `DIR show`. None exactly where they ask for none.
pub fn parse_words(words: &[String]) -> Option<Job>
    ensures job { result ≡ job_of (map string_bytes words.now) }
{
    match words {
        [directory, job] => {
            if directory.as_bytes().is_empty() {
                return None;
            }
            job_of_text(job.as_bytes())
        }
        [directory, job, part, kib] => {
            if directory.as_bytes().is_empty() || job.as_bytes() != b"run".as_slice() {
                return None;
            }
            match pool(part.as_bytes(), kib.as_bytes()) {
                Some(home) => Some(Job::Run { home }),
                None => None,
            }
        }
        _ => None,
    }
}

/// The job of one word behind the folder.
fn job_of_text(job: &[u8]) -> Option<Job>
    ensures job { result ≡ job_of_word job.now }
{
    if job == b"run".as_slice() {
        return Some(Job::Run { home: DEFAULT_POOL });
    }
    if job == b"show".as_slice() {
        return Some(Job::Show);
    }
    None
}

/// The line that a program prints on standard error after this status: one for 2 and for 4 to 9.
pub fn status_line(status: u8) -> Option<&'static str>
    ensures line { MatchOption result (line_of status ≡ None) (λ line. line_of status ≡ Some line.now) }
{
    match status {
        2 => Some("usage: qls DIR run [PART KIB] | show"),
        4 => Some("source fault"),
        5 => Some("site fault"),
        6 => Some("want of memory"),
        7 => Some("script too long"),
        8 => Some("draw fault"),
        9 => Some("counter spent"),
        _ => None,
    }
}

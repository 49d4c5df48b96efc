// The run over them.
ghost use Rattle.std.specs.Prelude.{◌≡◌, ◌↔◌, map, None, true};
ghost use Rattle.std.specs.String.{string_bytes};
ghost use Rattle.qls_site.specs.Disk.{IsQuiet};
ghost use Rattle.qls_top.specs.Words.{job_of};
ghost use Rattle.qls_top.specs.Run.{IfRun, IfShow, OfRun, EndsSpent};
ghost use Rattle.qls_top.specs.Complete.{Completes, CompletesShow};
ghost use Rattle.qls_steady.specs.Steady.{content_in, told_in, left_in, EndsSteadily, is_steady_status};

use crate::serials::SteadySerials;
use crate::site::SteadySite;
use crate::source::SteadySource;
use qls_top::run;
use std::alloc::Global;

/// Runs the job that the words ask for, as [`run`] does, and answers its status. The shapes of words, lines and replies are those of
/// [`run`]. Nothing is pending on the site as it begins, and at 0 nothing is again.
///
/// Where the start means a state, the script is within 67,108,864 bytes and nothing met its end, the status is 0, or for want of
/// memory 6.
///
/// | status | comes |
/// |---|---|
/// | 0 | of a run: the script was read to its end, and every line is answered; of a show: the state is answered |
/// | 2 | exactly where the words ask for no job |
/// | 3 | the store breaks a damage rule, and the line of the first that fails is answered |
/// | 6 | memory was wanting |
/// | 7 | the script has a byte 67,108,865 |
/// | 9 | only of a run: a command, or the opening, met its end |
///
/// 4, 5 and 8 never come, since no call fails here.
pub fn run_steadily(
    alloc: Global,
    words: &[String],
    source: &mut SteadySource,
    site: &mut SteadySite,
    serials: &mut SteadySerials,
) -> u8
    requires quiet { IsQuiet (content_in site.old).now.disk }
    ensures usage { (result ≡ 2) ↔ (job_of (map string_bytes words.now) ≡ None) }
    ensures no_fault { is_steady_status result ≡ true }
    ensures ends { IfRun (job_of (map string_bytes words.now)) (λ home. EndsSteadily result home (told_in site.old) (told_in site.new) (left_in source.old)) }
    ensures complete { IfRun (job_of (map string_bytes words.now)) (λ home. Completes result home (told_in site.old) (told_in site.new) (left_in source.old)) }
    ensures complete_show { IfShow (job_of (map string_bytes words.now)) (CompletesShow result (told_in site.old)) }
    ensures spent { result ≡ 9 → OfRun (job_of (map string_bytes words.now)) (λ home. EndsSpent home (told_in site.old) (told_in site.new) (left_in source.old)) }
    ensures rests { result ≡ 0 → IsQuiet (content_in site.new).now.disk }
{
    run(alloc, words, source, site, serials)
}

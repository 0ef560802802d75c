// The run of a loaded table over a sentence: its way is walked once, into a buffer, and tested there; then the result is copied to the output
// slice. Time O(n) for n tags, whatever the table; space n bytes of the stack.
#![tactic(auto)]

ghost use Rattle.std.specs.Prelude.{◌+◌, ◌≤◌, length};
ghost use Rattle.limits.specs.Limits.{most_tags, longest_sentence, InRange};
ghost use Rattle.sentences.specs.Run.{Ran, Accepted};
ghost use Rattle.loaded.specs.Run.{loaded_run};
ghost use Rattle.ways.specs.Walk.{Walkable};
ghost use Rattle.walker.specs.Run.{way_run};

use answers::{Reason, Refusal};
use limits::Limits;
use ways::{number_at, walk};

// The run of a sentence that is not refused, through the buffer.
fn run_in(
    ns: &[u32],
    k: u8,
    sentence: &[u8],
    out: &mut [u8],
    buf: &mut [u8],
) -> Result<usize, Refusal>
    requires { Walkable k sentence.now (length buf.old) × (length sentence.now ≤ length out.old) }
    ensures { Ran (way_run ns.now k sentence.now) sentence.now out.old out.new result }
{
    if !walk(ns, usize::from(k), sentence, buf) {
        return Err(Refusal::Bare(Reason::BadTable));
    }
    let made = &buf[..sentence.len()];
    if k <= sentences::highest_of(made) {
        return Err(Refusal::Bare(Reason::BadTable));
    }
    sentences::copy(made, out);
    Ok(sentences::count_changes(sentence, made))
}

// A buffer is cleared for each call: short sentences have a short one. Each has three bytes more than its sentences have tags.
const SHORT: usize = 64 + 3;

const MIDDLE: usize = 256 + 3;

const LONG: usize = 2048 + 3;

const LONGEST: usize = limits::SENTENCE + 3;

// The run of a sentence that is not refused, with a buffer of so many bytes.
fn run_within<const N: usize>(
    ns: &[u32],
    k: u8,
    sentence: &[u8],
    out: &mut [u8],
) -> Result<usize, Refusal>
    requires { Accepted k sentence.now (length out.old) × (k ≤ most_tags) × (length sentence.now + 3 ≤ N) × (N ≤ longest_sentence + 3) }
    ensures { Ran (way_run ns.now k sentence.now) sentence.now out.old out.new result }
{
    let mut buf = [0u8; N];
    run_in(ns, k, sentence, out, &mut buf)
}

// The run of a sentence that the short buffer is too short for. The function calls itself in a branch that is never taken: so the
// compiler keeps it, and each larger buffer, in a frame of its own.
fn run_beyond(ns: &[u32], k: u8, sentence: &[u8], out: &mut [u8]) -> Result<usize, Refusal>
    requires { Accepted k sentence.now (length out.old) × (k ≤ most_tags) }
    ensures { Ran (way_run ns.now k sentence.now) sentence.now out.old out.new result }
{
    if out.len() < sentence.len() {
        return run_beyond(ns, k, sentence, out);
    }
    let need = sentence.len() + 3;
    if need <= MIDDLE {
        return run_within::<MIDDLE>(ns, k, sentence, out);
    }
    if need <= LONG {
        return run_within::<LONG>(ns, k, sentence, out);
    }
    run_within::<LONGEST>(ns, k, sentence, out)
}

// The run of a sentence that is not refused.
fn run_accepted(ns: &[u32], k: u8, sentence: &[u8], out: &mut [u8]) -> Result<usize, Refusal>
    requires { Accepted k sentence.now (length out.old) × (k ≤ most_tags) }
    ensures { Ran (way_run ns.now k sentence.now) sentence.now out.old out.new result }
{
    if sentence.len() + 3 <= SHORT {
        return run_within::<SHORT>(ns, k, sentence, out);
    }
    run_beyond(ns, k, sentence, out)
}

// The run with limits in their ranges.
fn run_ranged(
    loaded: &[u32],
    sentence: &[u8],
    out: &mut [u8],
    lim: Limits,
) -> Result<usize, Refusal>
    requires { InRange lim }
    ensures { Ran (loaded_run lim loaded.now sentence.now (length out.old)) sentence.now out.old out.new result }
{
    if loaded.is_empty() {
        return Err(Refusal::Bare(Reason::BadTable));
    }
    let head = number_at(loaded, 0);
    if head < limits::FEWEST_TAGS || lim.tags < head {
        return Err(Refusal::Bare(Reason::BadTable));
    }
    let k = head as u8;
    sentences::admit(sentence, k, out.len())?;
    run_accepted(loaded, k, sentence, out)
}

// Runs a loaded table over a sentence: the number of changed tags, or 17, 12 for the head, 13, 4, 11, or 12 for what its way meets.
pub fn run_loaded(
    loaded: &[u32],
    sentence: &[u8],
    out: &mut [u8],
    lim: Limits,
) -> Result<usize, Refusal>
    ensures { Ran (loaded_run lim loaded.now sentence.now (length out.old)) sentence.now out.old out.new result }
{
    if !limits::in_range(lim) {
        return Err(Refusal::Bare(Reason::BadLimit));
    }
    run_ranged(loaded, sentence, out, lim)
}

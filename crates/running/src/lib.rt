// The run of the rules in a reader's arrays over a sentence: its refusals, or the result at the front of a slice. The slice v, which lies beside the
// sentence, gets the number of the last rule that rewrote each tag, and has no length where a call wants no numbers.
#![tactic(auto)]

ghost use Rattle.std.specs.Prelude.{◌≡◌, ◌++◌, ◌≤◌, length, drop};
ghost use Rattle.limits.specs.Limits.{no_end};
ghost use Rattle.words.specs.Word.{Below};
ghost use Rattle.words.specs.Pieces.{piecewise};
ghost use Rattle.answers.specs.Slice.{written};
ghost use Rattle.cascades.specs.Rewrite.{apply_all};
ghost use Rattle.books.specs.Arrays.{arrays, rules_of, cascade_of};
ghost use Rattle.endings.specs.Usable.{Usable};
ghost use Rattle.traces.specs.Trace.{numbers_of};
ghost use Rattle.sentences.specs.Run.{run, Ran};
ghost use Rattle.sentences.specs.Parts.{Wrote};
ghost use Rattle.running.specs.Rules.{cascade_run, cascade_numbers};

use answers::{Reason, Refusal};
use books::Rules;
use limits::PATTERN;

// The sentence to the front of `out`, and the first m rules of the arrays, which have no sets, applied there: the number of changed tags.
fn write_rules(
    sentence: &[u8],
    out: &mut [u8],
    m: usize,
    rules: &Rules,
    sets: &[[u64; PATTERN]],
) -> usize
    requires usable { Usable m (arrays rules.now sets.now) × (length sets.now ≡ 0) }
    requires sentence_in_bounds { length sentence.now ≤ length out.old }
    ensures { Wrote (apply_all (rules_of (arrays rules.now sets.now) m) sentence.now) sentence.now out.old out.new result }
{
    let mut none = [0u8; 0];
    let n = sentence.len();
    sentences::copy(sentence, out);
    application::apply_tags(&mut out[..n], &mut none[..], rules, sets, 0, m);
    sentences::count_changes(sentence, &out[..n])
}

// The same, and the rules applied to each piece, with their numbers.
fn write_pieces(
    sentence: &[u8],
    out: &mut [u8],
    v: &mut [u8],
    end: u8,
    m: usize,
    rules: &Rules,
    sets: &[[u64; PATTERN]],
) -> usize
    requires usable { Usable m (arrays rules.now sets.now) }
    requires below { Below no_end sentence.now × (length sentence.now ≤ length out.old) }
    ensures out { Wrote (piecewise end (apply_all (rules_of (arrays rules.now sets.now) m)) sentence.now) sentence.now out.old out.new result }
    ensures v { length sentence.now ≤ length v.old → v.new ≡ piecewise end (numbers_of (rules_of (arrays rules.now sets.now) m)) sentence.now ++ drop (length sentence.now) v.old }
{
    let n = sentence.len();
    let noted = n.min(v.len());
    sentences::copy(sentence, out);
    application::apply_book(&mut out[..n], &mut v[..noted], end, rules, sets, m);
    sentences::count_changes(sentence, &out[..n])
}

// Runs the first m rules of the arrays, which have no sets, over the sentence: 13, 4 and 11.
pub fn run_rules(
    sentence: &[u8],
    out: &mut [u8],
    k: u8,
    m: usize,
    rules: &Rules,
    sets: &[[u64; PATTERN]],
) -> Result<usize, Refusal>
    requires { Usable m (arrays rules.now sets.now) × (length sets.now ≡ 0) }
    ensures { Ran (run k sentence.now (length out.old) (apply_all (rules_of (arrays rules.now sets.now) m) sentence.now)) sentence.now out.old out.new result }
{
    sentences::admit(sentence, k, out.len())?;
    Ok(write_rules(sentence, out, m, rules, sets))
}

// Runs them over each piece, where the slices that get a result have at least `room` bytes: 14, then 13, 4 and 11.
pub fn run_pieces(
    sentence: &[u8],
    out: &mut [u8],
    v: &mut [u8],
    room: usize,
    k: u8,
    end: u8,
    m: usize,
    rules: &Rules,
    sets: &[[u64; PATTERN]],
) -> Result<usize, Refusal>
    requires usable { Usable m (arrays rules.now sets.now) }
    requires k_le_no_end { (k ≤ no_end) × (room ≤ length out.old) }
    ensures out { Ran (cascade_run end (cascade_of k (arrays rules.now sets.now) m) sentence.now room) sentence.now out.old out.new result }
    ensures v { room ≤ length v.old → v.new ≡ written (cascade_numbers end (cascade_of k (arrays rules.now sets.now) m) sentence.now room) v.old }
{
    if endings::bad_end(k, rules, sets, m, end) {
        return Err(Refusal::Bare(Reason::BadEnd));
    }
    sentences::admit(sentence, k, room)?;
    Ok(write_pieces(sentence, out, v, end, m, rules, sets))
}

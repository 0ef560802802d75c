// What the runs of books and of tables share: a sentence's refusals, the copy and the count of changed tags.
#![tactic(auto)]

ghost use Rattle.std.specs.Prelude.{◌≡◌, ℕ, ◌+◌, ◌≤◌, List, ◌++◌, length, drop};
ghost use Rattle.words.specs.Word.{differences};
ghost use Rattle.sentences.specs.Run.{highest, admitted, run};
ghost use Rattle.sentences.specs.Parts.{Counted};
ghost use Rattle.answers.specs.Answer.{outcome_of};
ghost use Rattle.sentences.specs.Admission.{admission};

use answers::{Reason, Refusal};

// The highest tag of the word.
pub fn highest_of(s: &[u8]) -> u8
    ensures { result ≡ highest s.now }
{
    let mut top = 0;
    for a in s {
        if top < *a {
            top = *a;
        }
    }
    top
}

// 13 and 4 in that order: whether the sentence can be run over k tags.
pub fn admit_tags(sentence: &[u8], k: u8) -> Result<(), Refusal>
    ensures { outcome_of result ≡ admitted k sentence.now }
{
    if limits::SENTENCE < sentence.len() {
        return Err(Refusal::Bare(Reason::LongSentence));
    }
    if k <= highest_of(sentence) {
        return Err(Refusal::Bare(Reason::BadTag));
    }
    Ok(())
}

// Then 11: whether its result may be written to a slice of `room` bytes.
pub fn admit(sentence: &[u8], k: u8, room: usize) -> Result<(), Refusal>
    ensures { (made : List ℕ) → admission result made ≡ run k sentence.now room made }
{
    admit_tags(sentence, k)?;
    if room < sentence.len() {
        return Err(Refusal::Bare(Reason::ShortOutput));
    }
    Ok(())
}

// The sentence to the front of `out`. A loop, since `copy_from_slice` is a call of memmove, and the library for C needs nothing but memset.
pub fn copy(sentence: &[u8], out: &mut [u8])
    requires { length sentence.now ≤ length out.old }
    ensures { out.new ≡ sentence.now ++ drop (length sentence.now) out.old }
{
    for (i, tag) in sentence.iter().enumerate() {
        out[i] = *tag;
    }
}

// The number of places from one place up to another, not far after it, at which two words differ. A sum of bytes can be taken of many
// places at once.
fn count_near(a: &[u8], b: &[u8], from: usize, to: usize) -> usize
    requires a_len { length a.now ≡ length b.now }
    requires from_le_to { (from ≤ to) × (to ≤ length a.now) × (to ≤ from + 192) }
    ensures { Counted a.now b.now from to result }
{
    let mut n = 0u8;
    for i in from..to {
        if a[i] != b[i] {
            n += 1;
        }
    }
    n as usize
}

// The number of places at which two words of one length differ.
pub fn count_changes(a: &[u8], b: &[u8]) -> usize
    requires { length a.now ≡ length b.now }
    ensures { result ≡ differences a.now b.now }
{
    let mut n = 0;
    let mut i = 0;
    while i < a.len() {
        let to = i + (a.len() - i).min(192);
        n += count_near(a, b, i, to);
        i = to;
    }
    n
}

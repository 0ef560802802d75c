// The proof sheet: where a result differs from its sentence.
#![tactic(auto)]

ghost use Rattle.std.specs.Prelude.{◌≡◌, length};
ghost use Rattle.spans.specs.Span.{first_difference, last_difference, span, IsSpan};

// The first place at which the two words differ; their length where there is none.
fn first_difference(v: &[u8], w: &[u8]) -> usize
    requires { length v.now ≡ length w.now }
    ensures { result ≡ first_difference v.now w.now }
{
    for i in 0..v.len() {
        if v[i] != w[i] {
            return i;
        }
    }
    v.len()
}

// One more than the last place at which the two words differ; 0 where there is none.
fn last_difference(v: &[u8], w: &[u8]) -> usize
    requires { length v.now ≡ length w.now }
    ensures { result ≡ last_difference v.now w.now }
{
    for i in (0..v.len()).rev() {
        if v[i] != w[i] {
            return i + 1;
        }
    }
    0
}

// The sentence itself where the result is the same; else the part of the result from the first differing place to the last.
#[tactic(auto, using(crate::proofs::Span::span_inside))]
pub fn changed_span<'a>(sentence: &'a [u8], res: &'a [u8]) -> &'a [u8]
    ensures { IsSpan sentence.entry res.entry (span sentence.now res.now) result }
{
    if sentence.len() != res.len() {
        return &res[0..0];
    }
    let end = last_difference(sentence, res);
    if end == 0 {
        return sentence;
    }
    let start = first_difference(sentence, res);
    &res[start..end]
}

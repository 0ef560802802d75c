// A sentence's way through a loaded table, walked once: what it puts out goes into a buffer. Time O(n) for n tags, whatever the table.
#![tactic(auto)]

ghost use Rattle.std.specs.Prelude.{◌≡◌, ◌+◌, ◌≤◌, ◌<◌, map, length, drop, get_or};
ghost use Rattle.std.proofs.Math.Seq.{paste};
ghost use Rattle.loaded.specs.Run.{byte_of};
ghost use Rattle.ways.specs.Walk.{Put, Walkable, Copied, Walked};

const RESTING: usize = loaded::RESTING as usize;

pub fn number_at(ns: &[u32], at: usize) -> usize
    requires { at < length ns.now }
    ensures { (result ≡ get_or ns.now at 0) × (result < 0x100000000) }
{
    ns[at] as usize
}

// The lowest bytes of numbers to a part of the buffer.
fn put_numbers(numbers: &[u32], part: &mut [u8])
    requires { length numbers.now ≡ length part.old }
    ensures { part.new ≡ map byte_of numbers.now }
{
    for (i, n) in numbers.iter().enumerate() {
        part[i] = (*n % 0x100) as u8;
    }
}

// A word of more than three tags to the buffer: where it ends, or None if there are not so many numbers, or tags left.
fn put_long(ns: &[u32], e: usize, buf: &mut [u8], at: usize, n: usize) -> Option<usize>
    requires { (at ≤ n) × (n ≤ length buf.old) × (3 < byte_of e) }
    ensures { Put ns.now e buf.old buf.new at n result }
{
    let count = e % 0x100;
    let place = e / 0x100;
    if ns.len() < place + count || n - at < count {
        return None;
    }
    put_numbers(&ns[place..place + count], &mut buf[at..at + count]);
    Some(at + count)
}

// A word to the buffer, in which n tags and three more have room: where it ends, or None if that is after n.
fn put(ns: &[u32], e: usize, buf: &mut [u8], at: usize, n: usize) -> Option<usize>
    requires { (at ≤ n) × (n + 3 ≤ length buf.old) }
    ensures { Put ns.now e buf.old buf.new at n result }
{
    if 3 < e % 0x100 {
        return put_long(ns, e, buf, at, n);
    }
    buf[at] = (e / 0x100 % 0x100) as u8;
    buf[at + 1] = (e / 0x10000 % 0x100) as u8;
    buf[at + 2] = (e / 0x1000000 % 0x100) as u8;
    let to = at + e % 0x100;
    (to <= n).then_some(to)
}

// The rest of the sentence to the buffer, if there are as many tags in front.
fn copy_rest(sentence: &[u8], from: usize, buf: &mut [u8], at: usize) -> bool
    requires { (from ≤ length sentence.now) × (length sentence.now ≤ length buf.old) }
    ensures { Copied result sentence.now from buf.old buf.new at }
{
    if at != from {
        return false;
    }
    let n = sentence.len();
    sentences::copy(&sentence[from..], &mut buf[at..n]);
    true
}

// The sentence's way, into the buffer: whether it comes to an end with as many tags as the sentence has.
pub fn walk(ns: &[u32], k: usize, sentence: &[u8], buf: &mut [u8]) -> bool
    requires { Walkable k sentence.now (length buf.old) }
    ensures { Walked result ns.now k sentence.now buf.new }
{
    let n = sentence.len();
    let row = 2 * k + 2;
    if ns.len() <= row {
        return false;
    }
    let limit = (ns.len() - row + 1).min(RESTING);
    let mut p = 1;
    let mut at = 0;
    for i in 0..n {
        let c = p + 2 * usize::from(sentence[i]) + 2;
        let Some(to) = put(ns, number_at(ns, c + 1), buf, at, n) else {
            return false;
        };
        at = to;
        p = number_at(ns, c);
        if limit <= p {
            if p != RESTING {
                return false;
            }
            return copy_rest(sentence, i + 1, buf, at);
        }
    }
    put(ns, number_at(ns, p), buf, at, n) == Some(n)
}

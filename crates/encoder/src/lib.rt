// The bytes of a table that stands in the work slice (document 01, "Bytes of a table").
// Time O(b) for b bytes.
#![tactic(auto)]

ghost use Rattle.std.specs.Prelude.{◌≡◌, ◌+◌, ◌*◌, ◌≤◌, ◌<◌, length};
ghost use Rattle.tables.specs.Bytes.{tagged, joined, step_bytes, row_bytes, encode};
ghost use Rattle.workspace.specs.Cells.{word, Sized};
ghost use Rattle.encoder.specs.Encoding.{BytesWritten, step_in, steps_in, row_in, rows_in, Bytes, Encodable, Writable, Measured};

use workspace::{FINAL, Grid, NEXT, OUTPUT, Part, get};

// A number below 256 as a byte.
pub fn byte(n: usize) -> u8
    requires { n < 0x100 }
    ensures { result ≡ n }
{
    n as u8
}

// The command with a tag, for each tag of the word at (r, c, s).
fn write_word(
    work: &[u16],
    g: Grid,
    r: usize,
    c: usize,
    s: usize,
    command: u8,
    out: &mut [u8],
    from: usize,
) -> usize
    requires sized { Sized g work.now }
    requires bytes { Bytes g work.now r c s }
    requires s_in_bounds { from + length (tagged command (word g work.now r c s)) ≤ length out.old }
    ensures { BytesWritten out.old out.new from (tagged command (word g work.now r c s)) result }
{
    let n = get(work, g, r, c, s);
    let mut to = from;
    for i in 0..n {
        let tag = get(work, g, r, c, s + i + 1);
        out[to] = command;
        out[to + 1] = byte(tag);
        to += 2;
    }
    to
}

// The step on a of the state in row r.
fn write_step(work: &[u16], g: Grid, r: usize, a: usize, out: &mut [u8], from: usize) -> usize
    requires encodable { Encodable g work.now r }
    requires a_lt_tags { (a < g.tags) × (from + length (step_bytes (step_in g work.now r a)) ≤ length out.old) }
    ensures { BytesWritten out.old out.new from (step_bytes (step_in g work.now r a)) result }
{
    let next = get(work, g, r, a, NEXT);
    out[from] = 0x33;
    out[from + 1] = byte(next / 0x100);
    out[from + 2] = byte(next % 0x100);
    write_word(work, g, r, a, OUTPUT, 0x34, out, from + 3)
}

fn write_steps(work: &[u16], g: Grid, r: usize, out: &mut [u8], from: usize) -> usize
    requires encodable { Encodable g work.now r }
    requires r_in_bounds { from + length (joined step_bytes (steps_in g work.now r)) ≤ length out.old }
    ensures { BytesWritten out.old out.new from (joined step_bytes (steps_in g work.now r)) result }
{
    let mut to = from;
    for a in 0..g.tags {
        to = write_step(work, g, r, a, out, to);
    }
    to
}

// The state in row r.
fn write_row(work: &[u16], g: Grid, r: usize, out: &mut [u8], from: usize) -> usize
    requires encodable { Encodable g work.now r }
    requires r_in_bounds { from + length (row_bytes (row_in g work.now r)) ≤ length out.old }
    ensures { BytesWritten out.old out.new from (row_bytes (row_in g work.now r)) result }
{
    let tags = g.tags;
    let n = get(work, g, r, tags, FINAL);
    out[from] = 0x31;
    out[from + 1] = byte(n);
    let to = write_word(work, g, r, tags, FINAL, 0x32, out, from + 2);
    write_steps(work, g, r, out, to)
}

fn write_rows(work: &[u16], part: Part, out: &mut [u8], from: usize) -> usize
    requires writable { Writable part.grid work.now part.base part.states }
    requires n_in_bounds { from + length (joined row_bytes (rows_in part.grid work.now part.base part.states)) ≤ length out.old }
    ensures { BytesWritten out.old out.new from (joined row_bytes (rows_in part.grid work.now part.base part.states)) result }
{
    let mut to = from;
    for q in 0..part.states {
        to = write_row(work, part.grid, part.base + q, out, to);
    }
    to
}

// The table in the part's rows, to the front of `out`: the number of its bytes.
pub fn write_table(work: &[u16], part: Part, out: &mut [u8]) -> usize
    requires writable { Writable part.grid work.now part.base part.states }
    requires n_in_bounds { length (encode part.grid.tags (rows_in part.grid work.now part.base part.states)) ≤ length out.old }
    ensures { BytesWritten out.old out.new 0 (encode part.grid.tags (rows_in part.grid work.now part.base part.states)) result }
{
    let tags = part.grid.tags;
    out[0] = 0x30;
    out[1] = byte(tags);
    out[2] = byte(part.states / 0x100);
    out[3] = byte(part.states % 0x100);
    let to = write_rows(work, part, out, 4);
    out[to] = 0;
    to + 1
}

fn measure_steps(work: &[u16], g: Grid, r: usize) -> usize
    requires encodable { Encodable g work.now r }
    requires tags_bound { g.tags < 0x100 }
    ensures { Measured (joined step_bytes (steps_in g work.now r)) 0x2000000 result }
{
    let mut total = 0;
    for a in 0..g.tags {
        total += 3 + 2 * get(work, g, r, a, OUTPUT);
    }
    total
}

fn measure_row(work: &[u16], g: Grid, r: usize) -> usize
    requires encodable { Encodable g work.now r }
    requires tags_bound { g.tags < 0x100 }
    ensures { Measured (row_bytes (row_in g work.now r)) 0x3000000 result }
{
    let tags = g.tags;
    let n = get(work, g, r, tags, FINAL);
    2 + 2 * n + measure_steps(work, g, r)
}

// The number of bytes of the table in the part's rows.
pub fn measure(work: &[u16], part: Part) -> usize
    requires { Writable part.grid work.now part.base part.states }
    ensures { result ≡ length (encode part.grid.tags (rows_in part.grid work.now part.base part.states)) }
{
    let mut total = 0;
    for q in 0..part.states {
        total += measure_row(work, part.grid, part.base + q);
    }
    total + 5
}

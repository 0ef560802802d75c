// The starter table (document 02, W7): one rule over 48 tags for a new customer, without compiling anything.
#![tactic(auto)]

ghost use Rattle.std.specs.Prelude.{◌≡◌, length};
ghost use Rattle.answers.specs.Answer.{outcome_of};
ghost use Rattle.answers.specs.Slice.{long_of, written};
ghost use Rattle.starter.specs.Starter.{starter_answer};

use answers::{Reason, Refusal};

mod table;

// The table to the front of `out`: what compile answers for the starter book.
pub fn write_table(out: &mut [u8]) -> Result<usize, Refusal>
    ensures answer { outcome_of result ≡ long_of (starter_answer (length out.old)) }
    ensures out { out.new ≡ written (starter_answer (length out.old)) out.old }
{
    let table = table::TABLE;
    if out.len() < table.len() {
        return Err(Refusal::Bare(Reason::ShortOutput));
    }
    sentences::copy(&table, out);
    Ok(table.len())
}

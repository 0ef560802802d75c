// The table of no rules in the work slice: one state that puts out what it reads.
// Time O(k) for k tags.
#![tactic(auto)]

ghost use Rattle.std.specs.Prelude.{◌<◌, [], ◌∷◌};
ghost use Rattle.transducers.specs.Tabulate.{table};
ghost use Rattle.minimal.specs.TableOf.{identity};
ghost use Rattle.workspace.specs.Entries.{FINAL};
ghost use Rattle.workspace.specs.Cells.{Sized, Kept, InRows, Fits};
ghost use Rattle.workspace.specs.Holds.{Stepped, Stepping, Holds};

use workspace::{FINAL, Grid, NEXT, OUTPUT, clear, push, put};

fn write_step(work: &mut [u16], g: Grid, a: usize)
    requires sized { Sized g work.old }
    requires rows_nonzero { (0 < g.rows) × Fits g FINAL 0 × (a < g.tags) }
    ensures { Stepped g work.old work.new 0 a 0 (a ∷ []) }
{
    put(work, g, 0, a, NEXT, 0);
    clear(work, g, 0, a, OUTPUT);
    push(work, g, 0, a, OUTPUT, a);
}

fn write_steps(work: &mut [u16], g: Grid)
    requires sized { Sized g work.old }
    requires rows_nonzero { (0 < g.rows) × Fits g FINAL 0 }
    ensures { Stepping g work.old work.new 0 identity 0 g.tags }
{
    for a in 0..g.tags {
        write_step(work, g, a);
    }
}

// To row 0.
pub fn write_identity(work: &mut [u16], g: Grid)
    requires sized { Sized g work.old }
    requires rows_nonzero { (0 < g.rows) × Fits g FINAL 0 }
    ensures holds { Holds g work.new 0 (table g.tags identity) }
    ensures kept { Kept g work.old work.new (InRows 0 1) }
{
    write_steps(work, g);
    clear(work, g, 0, g.tags, FINAL);
}

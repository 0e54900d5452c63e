//! Who waits for each one.
ghost use Rattle.std.specs.Prelude.{◌≡◌, ◌+◌, ◌<◌, length};
ghost use Rattle.apply_plan.specs.RingMarks.{IsPut};
ghost use Rattle.direct_finish.specs.Settled.{BeforesUpto, AreBefores};

/// Writes what is noted at one place.
fn put(befores: &mut [usize], place: usize, behind: usize)
    requires { place < length befores.old }
    ensures { IsPut befores.old befores.new place behind }
{
    befores[place] = behind;
}

/// Notes of the one at a place that it waits for another one.
fn note_before(nexts: &[usize], befores: &mut [usize], place: usize)
    requires room { length befores.old ≡ length nexts.now }
    requires within { place < length nexts.now }
    requires upto { BeforesUpto nexts.now befores.old place }
    ensures room { length befores.new ≡ length nexts.now }
    ensures upto { BeforesUpto nexts.now befores.new (place + 1) }
{
    let next = nexts[place];
    if next >= befores.len() {
        return;
    }
    if befores[next] == 0 {
        put(befores, next, place + 1);
        return;
    }
    put(befores, next, nexts.len() + 1);
}

/// Notes at each place the one behind the place of the one that waits for it, or 0 where nobody does, or one past all
/// where more do.
pub fn note_befores(nexts: &[usize], befores: &mut [usize])
    requires room { length befores.old ≡ length nexts.now }
    ensures room { length befores.new ≡ length nexts.now }
    ensures befores { AreBefores nexts.now befores.new }
{
    for place in 0..befores.len() {
        put(befores, place, 0);
    }
    for place in 0..nexts.len() {
        note_before(nexts, befores, place);
    }
}

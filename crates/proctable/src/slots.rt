//! The processes as a table keeps them: by rising pid, and those that have ended among them until they are packed.
ghost use Rattle.std.specs.Prelude.{◌≡◌, ◌<◌, ◌≤◌, ◌+◌, ◌*◌, ℕ, length, filter, not, count_by, IfOk, IfErr, None, Some};
ghost use Rattle.std.specs.Prelude.{slice_index_or, slice_set};
ghost use Rattle.cpuset_tree.specs.Groups.{same_group};
ghost use Rattle.proctable.specs.Processes.{process_among};
ghost use Rattle.proctable.specs.TableChanges.{ends_with};
ghost use Rattle.proctable.specs.Kept.{live_of, alive_in, pid_at, over, nobody, PidsRise, IsRising, AreEnded};
ghost use Rattle.proctable.specs.Kept.{EndsAlone};

use crate::Process;
use cpuset_tree::Group;

/// A process that is alive, or one that has ended and is passed over.
#[derive(Clone, Copy)]
pub struct Slot {
    pub process: Process,
    pub ended: bool,
}

/// The place of a pid among those that are kept, which rise, or where it would be.
fn place_of(slots: &[Slot], pid: u32) -> Result<usize, usize>
    requires { IsRising slots.now }
    ensures found { IfOk result (λ place. (place < length slots.now) × (pid_at slots.now place ≡ pid)) }
    ensures absent { IfErr result (λ _. process_among (live_of slots.now) pid ≡ None) }
{
    slots.binary_search_by_key(&pid, |slot| slot.process.pid)
}

/// The process of a slot, where it lives.
fn alive_of(slot: Slot) -> Option<Process>
    ensures { result ≡ alive_in slot }
{
    if slot.ended { None } else { Some(slot.process) }
}

/// The live process of a pid, if there is one.
pub fn process_in(slots: &[Slot], pid: u32) -> Option<Process>
    requires { IsRising slots.now }
    ensures { result ≡ process_among (live_of slots.now) pid }
{
    match place_of(slots, pid) {
        Ok(place) => alive_of(slots[place]),
        Err(_) => None,
    }
}

/// How many live processes a group has.
pub fn count_of(slots: &[Slot], group: Group) -> usize
    ensures { result ≡ count_by (λ p. same_group p.group group) (live_of slots.now) }
{
    slots
        .iter()
        .filter(|slot| !slot.ended && slot.process.group == group)
        .count()
}

/// Marks the process at a place as ended.
fn end_at(slots: &mut Vec<Slot>, place: usize)
    requires { place < length slots.old.items }
    ensures { slots.new.items ≡ slice_set slots.old.items place (over (slice_index_or slots.old.items place nobody)) }
{
    slots[place] = Slot {
        process: slots[place].process,
        ended: true,
    };
}

/// Ends a live process, to which no other belongs, since it is no first one.
pub fn end_one(slots: &mut Vec<Slot>, pid: u32)
    requires { EndsAlone slots.old.items pid }
    ensures live { live_of slots.new.items ≡ filter (λ p. not (ends_with pid p)) (live_of slots.old.items) }
    ensures rising { (next : ℕ) → PidsRise 0 next slots.old.items → PidsRise 0 next slots.new.items }
    ensures ended { (ended : ℕ) → AreEnded slots.old.items ended → AreEnded slots.new.items (ended + 1) }
{
    match place_of(slots.as_slice(), pid) {
        Ok(place) => end_at(slots, place),
        Err(_) => {}
    }
}

/// Takes out those that have ended.
fn pack(slots: &mut Vec<Slot>)
    ensures live { live_of slots.new.items ≡ live_of slots.old.items }
    ensures rising { (next : ℕ) → PidsRise 0 next slots.old.items → PidsRise 0 next slots.new.items }
    ensures ended { AreEnded slots.new.items 0 }
{
    slots.retain(|slot| !slot.ended);
}

/// Takes out those that have ended, where they are more than the live ones, and tells how many are left.
pub fn pack_where_half_ended(slots: &mut Vec<Slot>, ended: usize) -> usize
    requires { AreEnded slots.old.items ended }
    ensures live { live_of slots.new.items ≡ live_of slots.old.items }
    ensures rising { (next : ℕ) → PidsRise 0 next slots.old.items → PidsRise 0 next slots.new.items }
    ensures ended { AreEnded slots.new.items result }
    ensures few { 2 * result ≤ length slots.new.items }
{
    if ended <= slots.len() / 2 {
        return ended;
    }
    pack(slots);
    0
}

//! How containers stood when all were looked at for rings.
ghost use Rattle.std.specs.Prelude.{◌≡◌, ◌<◌, IsTrue, length};
ghost use Rattle.direct_finish.specs.Seen.{IsWaiting, IsStanding, is_due, is_quiet};

/// How a container stood when all were looked at, as far as that still holds.
#[derive(Clone, Copy, Debug)]
pub enum Standing {
    /// It is pinned, stands in a ring and must give way there. It keeps an online CPU of its own, or has a place.
    Roomy,
    /// The same, but it can give way only by way of the reserved CPUs.
    Full,
    /// It is pinned, lets go of CPUs that others ask for, waits for another one, and stands in no ring.
    Waits,
    /// It waits for another one, and holds nothing that others ask for.
    Beside,
    /// It has its target, or has ended.
    Rests,
    /// It only grows. If it is pinned, it waits for nobody and its target has all spare CPUs, which may be somebody's
    /// places.
    Guarded,
    /// Nothing is known of it any more.
    Moved,
}

/// Whether one waits for another one.
pub fn waits(standing: Standing) -> bool
    ensures { IsTrue result → IsWaiting standing }
{
    match standing {
        Standing::Roomy => true,
        Standing::Full => true,
        Standing::Waits => true,
        Standing::Beside => true,
        Standing::Rests => false,
        Standing::Guarded => false,
        Standing::Moved => false,
    }
}

/// Whether one neither waits nor gave way: it has its target, has ended, or only grows and is guarded.
pub fn is_quiet(standing: Standing) -> bool
    ensures { result ≡ is_quiet standing }
{
    match standing {
        Standing::Roomy => false,
        Standing::Full => false,
        Standing::Waits => false,
        Standing::Beside => false,
        Standing::Rests => true,
        Standing::Guarded => true,
        Standing::Moved => false,
    }
}

/// Whether one waits for another one, and holds nothing that others ask for.
pub fn is_beside(standing: Standing) -> bool {
    match standing {
        Standing::Beside => true,
        _ => false,
    }
}

/// Whether it is one's turn to give way: of one that keeps CPUs of its own, where it is to, and else of any that must.
pub fn is_due(aside: bool, standing: Standing) -> bool
    ensures { result ≡ is_due aside standing }
{
    match standing {
        Standing::Roomy => true,
        Standing::Full => !aside,
        Standing::Waits => false,
        Standing::Beside => false,
        Standing::Rests => false,
        Standing::Guarded => false,
        Standing::Moved => false,
    }
}

/// Writes how one stands.
pub fn put(standings: &mut [Standing], place: usize, standing: Standing)
    requires { place < length standings.old }
    ensures { IsStanding standings.old standings.new place standing }
{
    standings[place] = standing;
}

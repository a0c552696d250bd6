//! The next thread in turn: of a list, or by the numbers of the threads. A thread may be held, and then it is
//! as if it were not enabled.

ghost use Rattle.std.specs.Prelude.{◌≡◌, ◌&&◌, not, find, position};
ghost use Rattle.machine_model.specs.Follow.{is_above, is_among};
ghost use Rattle.turn_policy.specs.Policy.{free_threads, is_held};

/// The first entry of the list whose thread is enabled and not held.
pub fn next_listed(listed: &[u8], held: Option<u32>, enabled: &[u32]) -> Option<usize>
    ensures { result ≡ position (is_among (free_threads held enabled.now)) listed.now }
{
    listed
        .iter()
        .position(|thread| is_free(held, enabled, u32::from(*thread)))
}

/// The first thread above the one chosen last that is enabled and not held.
pub fn next_above(last: Option<u32>, held: Option<u32>, enabled: &[u32]) -> Option<u32>
    ensures { result ≡ find (is_above last) (free_threads held enabled.now) }
{
    enabled
        .iter()
        .copied()
        .find(|thread| is_next(last, held, *thread))
}

/// Whether the thread is enabled and not held.
fn is_free(held: Option<u32>, enabled: &[u32], thread: u32) -> bool
    ensures { result ≡ is_among (free_threads held enabled.now) thread }
{
    !is_held(held, thread) && enabled.contains(&thread)
}

/// Whether the thread is above the one chosen last and not held.
fn is_next(last: Option<u32>, held: Option<u32>, thread: u32) -> bool
    ensures { result ≡ (not (is_held held thread) && is_above last thread) }
{
    !is_held(held, thread) && is_above(last, thread)
}

/// Whether the thread is the one that is held.
fn is_held(held: Option<u32>, thread: u32) -> bool
    ensures { result ≡ is_held held thread }
{
    match held {
        Some(held) => thread == held,
        None => false,
    }
}

/// Whether the thread is above the one that was chosen last.
fn is_above(last: Option<u32>, thread: u32) -> bool
    ensures { result ≡ is_above last thread }
{
    match last {
        Some(last) => last < thread,
        None => true,
    }
}

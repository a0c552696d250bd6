//! Turns as the longest runs of equal threads.

ghost use Rattle.std.specs.Prelude.{◌≡◌, ◌<◌, ◌≤◌, [], ◌∷◌, ◌==◌, length, MatchOption};
ghost use Rattle.std.specs.List.{prefix_len};
ghost use Rattle.text_lines.specs.ThreadRun.{thread_runs};

/// A run of turns of one thread.
#[derive(Clone, Copy)]
pub struct ThreadRun {
    pub thread: u8,
    pub count: usize,
}

/// The first of the longest runs of some turns, and the turns after it.
pub fn split_first_run(turns: &[u8]) -> Option<(ThreadRun, &[u8])>
    ensures runs { MatchOption result (turns.now ≡ [])
        (λ split. thread_runs turns.now ≡ split.0 ∷ thread_runs split.1.now) }
    ensures shorter { MatchOption result (turns.now ≡ [])
        (λ split. length split.1.now < length turns.now) }
{
    let thread = *turns.first()?;
    let count = count_front(turns, thread);
    Some((ThreadRun { thread, count }, &turns[count..]))
}

/// How many turns at the front are of the thread.
fn count_front(turns: &[u8], thread: u8) -> usize
    ensures value { result ≡ prefix_len (λ turn. turn == thread) turns.now }
    ensures within { result ≤ length turns.now }
{
    turns.iter().take_while(|turn| **turn == thread).count()
}

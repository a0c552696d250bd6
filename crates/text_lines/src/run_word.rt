//! Runs of turns as they are spelled.

ghost use Rattle.std.specs.Prelude.{◌≡◌, [], ◌∷◌, MatchOption};
ghost use Rattle.std.specs.Option.{is_some};
ghost use Rattle.text_lines.specs.RunWord.{run_word_of, run_words_of, some_run_words};

use crate::number::{one_number, read_number};
use crate::part::Parts;
use std::marker::Model;

/// Some turns of one thread in a row: `T` for one turn, `T*N` for N of them.
#[derive(Clone, Copy)]
pub struct RunWord {
    pub thread: u128,
    pub times: Option<u128>,
}

impl RunWord {
    /// The run that the word spells, where it spells one.
    #[tactic(auto, unfolding(crate::specs::RunWord::run_word_of))]
    pub fn read(word: &[u8]) -> Option<RunWord>
        ensures { result ≡ run_word_of word.now }
    {
        let mut parts = Parts::new(b'*', word);
        let thread = read_number(parts.next()?)?;
        if parts.is_empty() {
            return Some(RunWord {
                thread,
                times: None,
            });
        }
        let times = one_number(parts)?;
        Some(RunWord {
            thread,
            times: Some(times),
        })
    }
}

/// Words of which each is a run, which contracts see as these runs. They are read one at a time.
#[derive(Drop)]
pub struct RunWords<'s> {
    words: Parts<'s>,
}

impl<'s> Model for RunWords<'s> {
    ghost use Rattle.std.specs.Prelude.{List, [], IsSome};
    ghost use Rattle.std.specs.Option.{unwrap_or};
    ghost use Rattle.text_lines.specs.declared.run_word.RunWord.{RunWord as Word};
    ghost use Rattle.text_lines.specs.RunWord.{run_words_of};

    ghost Value = { List Word };

    ghost view = { λ runs. unwrap_or (run_words_of runs.words) [] };

    ghost invariant = { λ runs. IsSome (run_words_of runs.words) };
}

impl<'s> RunWords<'s> {
    /// The runs of these words, if there is one, and each is a run.
    #[tactic(auto, using(crate::proofs::Spelled::some_of))]
    pub fn read(words: Parts<'s>) -> Option<RunWords<'s>>
        ensures { result ≡ some_run_words words.entry }
    {
        if words.is_empty() || !are_runs(words.again()) {
            return None;
        }
        Some(RunWords { words })
    }

    /// Takes off the first run, where one is left.
    pub fn next(&mut self) -> Option<RunWord>
        ensures { MatchOption result ((self.old ≡ []) × (self.new ≡ [])) (λ run. self.old ≡ run ∷ self.new) }
    {
        RunWord::read(self.words.next()?)
    }
}

fn are_runs(words: Parts<'_>) -> bool
    ensures { result ≡ is_some (run_words_of words.entry) }
{
    let mut words = words;
    'words: while let Some(word) = words.next() {
        if RunWord::read(word).is_none() {
            return false;
        }
    }
    true
}

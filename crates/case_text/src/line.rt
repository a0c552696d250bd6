//! A line by its shape alone.

ghost use Rattle.std.specs.Prelude.{◌≡◌, option_and_then, option_map};
ghost use Rattle.case_text.specs.Line.{heading_with, input_line, keyword_in, line_of, line_with, race_line};
ghost use Rattle.text_lines.specs.Number.{one_number, three_numbers, two_numbers};

use crate::keyword::{Field, Keyword};
use crate::words::{InputWords, WatchWords};
use text_lines::{Parts, RunWords, one_number, three_numbers, two_numbers};

/// A line. Its numbers are as large as they are spelled, up to 2^64.
#[derive(Drop)]
pub enum Line<'s> {
    Heading,
    Field(Field, u128),
    Input(InputWords),
    Watch(WatchWords<'s>),
    Turns(RunWords<'s>),
    Race(u128, u128),
    End,
}

impl<'s> Line<'s> {
    /// The line that a text without line feeds spells, where it spells one.
    #[tactic(auto, unfolding(crate::specs::Line::line_of))]
    pub fn read(text: &'s [u8]) -> Option<Line<'s>>
        ensures { result ≡ line_of text.now }
    {
        let mut words = Parts::new(b' ', text);
        let keyword = Keyword::read(words.next()?)?;
        Line::with(keyword, words)
    }

    /// The line of a keyword, by the words behind it.
    fn with(keyword: Keyword, words: Parts<'s>) -> Option<Line<'s>>
        ensures { result ≡ line_with keyword words.entry }
    {
        match keyword {
            Keyword::Heading => Line::heading(words),
            Keyword::Field(field) => Some(Line::Field(field, one_number(words)?)),
            Keyword::Input => Line::input(words),
            Keyword::Watch => Some(Line::Watch(WatchWords::read(words)?)),
            Keyword::Turn => Some(Line::Turns(RunWords::read(words)?)),
            Keyword::Race => Line::race(words),
            Keyword::End => {
                if words.is_empty() {
                    Some(Line::End)
                } else {
                    None
                }
            }
        }
    }

    fn heading(words: Parts<'s>) -> Option<Line<'s>>
        ensures { result ≡ option_and_then heading_with (one_number words.entry) }
    {
        if one_number(words)? == 1 {
            Some(Line::Heading)
        } else {
            None
        }
    }

    fn input(words: Parts<'s>) -> Option<Line<'s>>
        ensures { result ≡ option_map input_line (three_numbers words.entry) }
    {
        let (slot, width, value) = three_numbers(words)?;
        Some(Line::Input(InputWords { slot, width, value }))
    }

    fn race(words: Parts<'s>) -> Option<Line<'s>>
        ensures { result ≡ option_map race_line (two_numbers words.entry) }
    {
        let (first, second) = two_numbers(words)?;
        Some(Line::Race(first, second))
    }

    /// The line's first word.
    pub fn keyword(&self) -> Keyword
        ensures { result ≡ keyword_in self.now }
    {
        match self {
            Line::Heading => Keyword::Heading,
            Line::Field(field, _) => Keyword::Field(*field),
            Line::Input(_) => Keyword::Input,
            Line::Watch(_) => Keyword::Watch,
            Line::Turns(_) => Keyword::Turn,
            Line::Race(_, _) => Keyword::Race,
            Line::End => Keyword::End,
        }
    }
}

//! The classes of words. The tables go by length, so that a word is compared with few others.

ghost use Rattle.std.specs.Prelude.{◌≡◌, bytes_eq, map};
ghost use Rattle.ir_read.specs.Words as spec;

use crate::terminal::Terminal;

/// The class of a word: what it is in the language, or another word.
#[tactic(auto, unfolding(crate::specs::Words::word_class))]
pub fn word_class(word: &[u8]) -> Terminal
    ensures { result ≡ spec.word_class word.now }
{
    match word.len() {
        1 => word_of_one(word),
        2 => word_of_two(word),
        3 => word_of_three(word),
        4 => word_of_four(word),
        5 => word_of_five(word),
        6 => word_of_six(word),
        7 => word_of_seven(word),
        8 => word_of_eight(word),
        9 => word_of_nine(word),
        _ => longer_word(word),
    }
}

fn word_of_one(word: &[u8]) -> Terminal
    ensures { result ≡ spec.class_in Terminal.OtherWord spec.words_of_one word.now }
{
    match word {
        b"x" => Terminal::KeyX,
        _ => Terminal::OtherWord,
    }
}

fn word_of_two(word: &[u8]) -> Terminal
    ensures { result ≡ spec.class_in Terminal.OtherWord spec.words_of_two word.now }
{
    match word {
        b"i1" | b"i8" => Terminal::Int,
        b"to" => Terminal::KeyTo,
        b"or" => Terminal::Binary,
        b"eq" | b"ne" => Terminal::Predicate,
        b"br" => Terminal::Br,
        _ => Terminal::OtherWord,
    }
}

fn word_of_three(word: &[u8]) -> Terminal
    ensures { result ≡ spec.class_in Terminal.OtherWord spec.words_of_three word.now }
{
    match word {
        b"nuw" | b"nsw" => Terminal::Skipped,
        b"i16" | b"i32" | b"i64" => Terminal::Int,
        b"ptr" => Terminal::Ptr,
        b"add" | b"sub" | b"mul" | b"shl" | b"and" | b"xor" => Terminal::Binary,
        b"ugt" | b"uge" | b"ult" | b"ule" | b"sgt" | b"sge" | b"slt" | b"sle" =>
            Terminal::Predicate,
        b"phi" => Terminal::Phi,
        b"ret" => Terminal::Ret,
        _ => Terminal::OtherWord,
    }
}

fn word_of_four(word: &[u8]) -> Terminal
    ensures { result ≡ spec.class_in Terminal.OtherWord spec.words_of_four word.now }
{
    match word {
        b"tail" | b"nusw" | b"nneg" | b"cold" => Terminal::Skipped,
        b"none" => Terminal::KeyNone,
        b"type" => Terminal::KeyType,
        b"void" => Terminal::Void,
        b"true" | b"null" => Terminal::LiteralWord,
        b"udiv" | b"sdiv" | b"urem" | b"srem" | b"lshr" | b"ashr" => Terminal::Binary,
        b"icmp" => Terminal::Icmp,
        b"zext" | b"sext" => Terminal::Cast,
        b"load" => Terminal::Load,
        b"call" => Terminal::Call,
        _ => Terminal::OtherWord,
    }
}

fn word_of_five(word: &[u8]) -> Terminal
    ensures { result ≡ spec.class_in Terminal.OtherWord spec.words_of_five word.now }
{
    match word {
        b"exact" => Terminal::Skipped,
        b"align" => Terminal::Align,
        b"label" => Terminal::KeyLabel,
        b"false" => Terminal::LiteralWord,
        b"trunc" => Terminal::Cast,
        b"store" => Terminal::Store,
        _ => Terminal::OtherWord,
    }
}

fn word_of_six(word: &[u8]) -> Terminal
    ensures { result ≡ spec.class_in Terminal.OtherWord spec.words_of_six word.now }
{
    class_in(
        word,
        &[
            ("common", Terminal::Skipped),
            ("notail", Terminal::Skipped),
            ("hidden", Terminal::Skipped),
            ("nofree", Terminal::Skipped),
            ("nosync", Terminal::Skipped),
            ("immarg", Terminal::Skipped),
            ("global", Terminal::KeyGlobal),
            ("define", Terminal::KeyDefine),
            ("select", Terminal::Select),
            ("alloca", Terminal::Alloca),
            ("switch", Terminal::Switch),
        ],
    )
}

fn word_of_seven(word: &[u8]) -> Terminal
    ensures { result ≡ spec.class_in Terminal.OtherWord spec.words_of_seven word.now }
{
    class_in(
        word,
        &[
            ("private", Terminal::Skipped),
            ("noundef", Terminal::Skipped),
            ("signext", Terminal::Skipped),
            ("zeroext", Terminal::Skipped),
            ("noalias", Terminal::Skipped),
            ("nonnull", Terminal::Skipped),
            ("optnone", Terminal::Skipped),
            ("uwtable", Terminal::Skipped),
            ("declare", Terminal::KeyDeclare),
        ],
    )
}

fn word_of_eight(word: &[u8]) -> Terminal
    ensures { result ≡ spec.class_in Terminal.OtherWord spec.words_of_eight word.now }
{
    class_in(
        word,
        &[
            ("internal", Terminal::Skipped),
            ("volatile", Terminal::Skipped),
            ("inbounds", Terminal::Skipped),
            ("disjoint", Terminal::Skipped),
            ("samesign", Terminal::Skipped),
            ("readonly", Terminal::Skipped),
            ("readnone", Terminal::Skipped),
            ("returned", Terminal::Skipped),
            ("nounwind", Terminal::Skipped),
            ("noinline", Terminal::Skipped),
            ("noreturn", Terminal::Skipped),
            ("captures", Terminal::Captures),
            ("constant", Terminal::KeyGlobal),
            ("ptrtoint", Terminal::Cast),
            ("inttoptr", Terminal::IntToPtr),
        ],
    )
}

fn word_of_nine(word: &[u8]) -> Terminal
    ensures { result ≡ spec.class_in Terminal.OtherWord spec.words_of_nine word.now }
{
    class_in(
        word,
        &[
            ("dso_local", Terminal::Skipped),
            ("nocapture", Terminal::Skipped),
            ("writeonly", Terminal::Skipped),
        ],
    )
}

fn longer_word(word: &[u8]) -> Terminal
    ensures { result ≡ spec.class_in Terminal.OtherWord spec.longer_words word.now }
{
    class_in(
        word,
        &[
            ("unnamed_addr", Terminal::Skipped),
            ("local_unnamed_addr", Terminal::Skipped),
            ("mustprogress", Terminal::Skipped),
            ("willreturn", Terminal::Skipped),
            ("dereferenceable", Terminal::Dereferenceable),
            ("zeroinitializer", Terminal::LiteralWord),
            ("getelementptr", Terminal::GetElementPtr),
            ("unreachable", Terminal::Unreachable),
        ],
    )
}

/// The class of the word in these rows.
fn class_in(word: &[u8], rows: &[(&str, Terminal)]) -> Terminal
    ensures { result ≡ spec.class_in Terminal.OtherWord (map (λ row. (row.0.now, row.1)) rows.now) word.now }
{
    for (name, terminal) in rows {
        if is_same(word, name.as_bytes()) {
            return *terminal;
        }
    }
    Terminal::OtherWord
}

/// Whether two words are the same. Most differ in their first byte.
#[inline(always)]
fn is_same(word: &[u8], name: &[u8]) -> bool
    ensures { result ≡ bytes_eq word.now name.now }
{
    let mut word = word;
    let mut name = name;
    while let Some((byte, rest)) = word.split_first() {
        match name.split_first() {
            Some((other, others)) if byte == other => {
                word = rest;
                name = others;
            }
            _ => return false,
        }
    }
    name.is_empty()
}

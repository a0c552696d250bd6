//! What is known of the variables: a mark for each.

ghost use Rattle.std.specs.Prelude.{◌≡◌, slice_index, slice_set, unsigned_abs};
ghost use Rattle.refutation.specs.Marks.{is_false, is_unset, made_false, made_true, mark_of};

/// The mark of a variable whose value is known. The mark of another is 0.
pub fn mark_of(value: bool) -> u8
    ensures { result ≡ mark_of value }
{
    if value { 1 } else { 2 }
}

/// The mark of a literal's variable, 0 where the marks have no place for it.
fn mark_at(marks: &[u8], literal: i32) -> u8
    ensures { result ≡ slice_index marks.now (unsigned_abs literal) }
{
    match marks.get(literal.unsigned_abs() as usize) {
        Some(mark) => *mark,
        None => 0,
    }
}

/// Whether a literal is false by the marks.
pub fn is_false(marks: &[u8], literal: i32) -> bool
    ensures { result ≡ is_false marks.now literal }
{
    mark_at(marks, literal) == mark_of(literal <= 0)
}

/// Whether the marks tell nothing of a literal's variable.
pub fn is_unset(marks: &[u8], literal: i32) -> bool
    ensures { result ≡ is_unset marks.now literal }
{
    mark_at(marks, literal) == 0
}

fn set_mark(marks: &mut [u8], literal: i32, mark: u8)
    ensures { marks.new ≡ slice_set marks.old (unsigned_abs literal) mark }
{
    let at = literal.unsigned_abs() as usize;
    if at < marks.len() {
        marks[at] = mark;
    }
}

/// Notes that a literal is true.
pub fn make_true(literal: i32, marks: &mut [u8])
    ensures { marks.new ≡ made_true literal marks.old }
{
    set_mark(marks, literal, mark_of(literal > 0));
}

/// Notes that a literal is false.
pub fn make_false(literal: i32, marks: &mut [u8])
    ensures { marks.new ≡ made_false literal marks.old }
{
    set_mark(marks, literal, mark_of(literal <= 0));
}

/// Forgets what is known of a literal's variable.
pub fn forget(literal: i32, marks: &mut [u8])
    ensures { marks.new ≡ slice_set marks.old (unsigned_abs literal) 0 }
{
    set_mark(marks, literal, 0);
}

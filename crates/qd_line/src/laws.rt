ghost use Rattle.std.specs.Prelude.{◌≡◌, ℕ, List, [], ◌++◌, true, reverse};
ghost use Rattle.qd_line.specs.Cutter.{Answers, IsTooLong, Past, StandsFor};
ghost use Rattle.qd_line.specs.Held.{Held};
ghost use Rattle.qd_line.specs.Lines.{is_one_line, last_bytes, lines};
ghost use Rattle.qd_line.specs.declared.cutter.Next.{Next};

/// The lines of all bytes fed are the lines given, and then those of the bytes that are left.
pub fn lines_given()
    ensures { (held : Held) (past : Past) → StandsFor held past → lines past.fed ≡ reverse past.given ++ lines held.left }
{}

/// Bytes with no LF have no line: after [`crate::Next::None`] all lines were given.
pub fn no_line_left()
    ensures { (left : List ℕ) → is_one_line left ≡ true → lines left ≡ [] }
{}

/// The lines of two texts in a row: those of the first, and those of what is behind its last LF with the second.
pub fn lines_in_a_row()
    ensures { (first second : List ℕ) → lines (first ++ second) ≡ lines first ++ lines (last_bytes first ++ second) }
{}

/// Two cutters that were fed the same bytes in any pieces and gave as many lines gave the same, and the same is left.
pub fn any_cutting()
    ensures { (one other : Held) (past than : Past) → StandsFor one past → StandsFor other than → past.fed ≡ than.fed → one.line ≡ other.line → (past.given ≡ than.given) × (one.left ≡ other.left) }
{}

/// One answer only, with one state after it, is right in a state.
pub fn one_answer()
    ensures { (old one other : Held) (answer than : Next) → Answers old one answer → Answers old other than → (answer ≡ than) × (one ≡ other) }
{}

/// Too long a line stays too long, whatever is fed.
pub fn too_long_stays()
    ensures { (left piece : List ℕ) → IsTooLong left → IsTooLong (left ++ piece) }
{}

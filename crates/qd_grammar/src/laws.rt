//! The laws of lines, as contracts of functions that do nothing.

ghost use Rattle.qd_grammar.specs.Laws.{IsOneOfThree, IsOnlyOne, SpellsOne, HasOneFault, CanonicalSpells, CanonicalDiffers, EachSpells, EachFits, SpellsItems};

/// In each mode and state, under each scheme, a line is skipped, spells an item, or has a fault, and no two of these.
pub fn one_of_three()
    ensures some { IsOneOfThree }
    ensures only { IsOnlyOne }
{}

/// No line spells two items or has two faults.
pub fn one_item()
    ensures item { SpellsOne }
    ensures fault { HasOneFault }
{}

/// The canonical line of an item spells the item in every state in which any line does, and the canonical lines of two
/// different items of one state differ. So what is written is read back as the item.
pub fn canonical_line()
    ensures spells { CanonicalSpells }
    ensures differs { CanonicalDiffers }
{}

/// What lines spell, told from the item's side: the canonical line of each item spells the item wherever the item may stand,
/// each item may stand somewhere, and what a line spells is an item that may stand there.
pub fn each_item()
    ensures spells { EachSpells }
    ensures fits { EachFits }
    ensures only { SpellsItems }
{}

//! What a run does with the items of its text.

use qd_decimal::Line;
use qd_scheme::Scheme;
use qd_text::Item;

/// One who is told the items of a text, in order.
pub(crate) trait Hearer {
    ghost use Rattle.std.specs.Prelude.{ℕ, List, ◌≡◌, ◌∷◌, false};
    ghost use Rattle.qd_items.specs.Judging.{Numbered};
    ghost use Rattle.qd_client.specs.Rules.{Rule, Hears};

    /// What it makes of each item.
    ghost rule: { Self → Rule };

    /// It was told these items, the newest first.
    ghost heard: { Self → List Numbered → Type 0 };

    /// It may be told one more.
    ghost is_open: { Self → Type 0 };

    /// Puts what an item prints in place of what the line had. True where the run is over with this item.
    fn hear(&mut self, scheme: &Scheme, item: &Item, line: &mut Line) -> bool
        requires { is_open self.old }
        ensures rule { rule self.new ≡ rule self.old }
        ensures hears { (items : List Numbered) → heard self.old items → Hears (rule self.old) scheme.now items item.now result line.new }
        ensures heard { (items : List Numbered) (number : ℕ) → heard self.old items → heard self.new (record { line = number; item = item.now } ∷ items) }
        ensures open { result ≡ false → is_open self.new };
}
